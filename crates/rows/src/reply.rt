//! The answer to a link's flow that the keepers of this repository give.
ghost use Rattle.std.specs.Prelude.{◌≡◌};
ghost use Rattle.rows.specs.Reply.{echoed};

use definitions::numbers::OutputHandle;
use frames::link::LinkFlow;

/// A flow that asks for an echo gets itself back, under the output handle and asking for none; another
/// gets no answer.
// Keepers repeat on their `reply` the trait's clause, and two of them the one here: their callers see their clauses alone.
pub fn echo(flow: LinkFlow, handle: OutputHandle) -> Option<LinkFlow>
    ensures { result ≡ echoed flow handle }
{
    flow.echo.then_some(LinkFlow {
        handle: handle.into(),
        echo: false,
        ..flow
    })
}
