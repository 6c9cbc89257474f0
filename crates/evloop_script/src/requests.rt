//! Requests and their answers, printed one after another.

ghost use Rattle.std.specs.Prelude.{◌≡◌, List, [], ◌∷◌, ◌++◌};
ghost use Rattle.std.specs.List.{zip};
ghost use Rattle.event_loop.specs.Exchange.{Exchanges, requests_of};
ghost use Rattle.event_loop.specs.PollerCall.{PollerCall};
ghost use Rattle.event_loop.specs.Requests.{AreMadeThrough};
ghost use Rattle.evloop_script.specs.Printed.{reply_text, written_by, AppendsPart, PrintsReplies};

use crate::output::{Out, OutputLine, Printer};
use event_loop::{Error, EventOps, EventPoller, Request};

// A line that can't be written is dropped.
fn print_reply<O: Out>(
    name: &str,
    request: Request,
    answer: Result<(), Error>,
    printer: &mut Printer<O>,
)
    ensures { AppendsPart (written_by O.contents printer.old) (written_by O.contents printer.new) (reply_text name.now request answer ++ 10 ∷ []) }
{
    let _ = printer.print(&OutputLine::Reply {
        name,
        request,
        answer,
    });
}

/// Makes the requests of a subscriber in order, and prints each with its answer. A line that can't be
/// written is dropped.
pub fn make_requests<P: EventPoller, O: Out>(
    name: &str,
    requests: &[Request],
    ops: &mut EventOps<P>,
    printer: &mut Printer<O>,
)
    ensures { (exchanges : Exchanges) × (calls : List PollerCall) × (requests_of exchanges ≡ requests.now)
        × AreMadeThrough P.controls P.waits ops.old ops.new exchanges calls }
{
    for request in requests {
        let answer = ops.request(*request);
        print_reply(name, *request, answer, printer);
    }
}

/// Prints each request with its answer, in order. The rest of a line that can't be written is dropped.
pub fn print_replies<O: Out>(
    name: &str,
    requests: &[Request],
    answers: &[Result<(), Error>],
    printer: &mut Printer<O>,
)
    ensures { PrintsReplies (written_by O.contents printer.old) name.now (zip requests.now answers.now) (written_by O.contents printer.new) }
{
    for (request, answer) in requests.iter().zip(answers) {
        print_reply(name, *request, *answer, printer);
    }
}
