//! Orders on a circuit or an error model, from its bytes to the bytes of the answer.
ghost use Rattle.std.specs.Prelude.{◌≡◌, ◌⊎◌, ℕ, false, List, [], Some, IfOk, IfErr, IfSome, OnOk, OnErr, OnSome};
ghost use Rattle.step_model.specs.Ends.{HandsOutSome, IsAtEnd, Takes, TakesSome, read_failures, write_failures};
ghost use Rattle.step_model.specs.Faults.{memory_fault, read_fault, write_fault};
ghost use Rattle.step_model.specs.declared.order.Order.TheVariants.{Analyze};
ghost use Rattle.engine.specs.declared.order.Status.TheVariants.{Done, Random};
ghost use Rattle.engine.specs.Headline.{IsDecided, IsExactFor, IsRandomFor};
ghost use Rattle.engine.specs.Output.{output_of};
ghost use Rattle.engine.specs.private.Answered.{AnswersOrder, is_prediction};
ghost use Rattle.engine.specs.private.Served.{Serves};

use crate::analysis::answer_analysis;
use crate::drawing::answer_shots;
use crate::listing::answer_faults;
use crate::order::Status;
use crate::predicting::serve_prediction;
use crate::running::answer_run;
use frames::Shown;
use std::alloc::Allocator;
use step_model::{Fault, Order, Sink, Source, read_all};

/// Reads a text to the end of its source, and writes to the sink what the order asks of it, or the one line that
/// says why it is refused. A source or a sink that failed isn't called again.
pub fn serve<R: Source, W: Sink, A: Allocator + Copy>(
    alloc: A,
    order: &Order<'_>,
    source: &mut R,
    sink: &mut W,
) -> Result<Status, Fault>
    // All the bytes of the source are read, where they are known, and the output for them is written, and nothing else.
    ensures read { OnOk result (OnSome (R.left source.old) (R.left source.new ≡ Some [])) }
    ensures written { OnOk result (IfSome (R.left source.old) (λ text.
        Takes (W.taken sink.old) (W.taken sink.new) (output_of order.now text).bytes)) }
    ensures status { IfOk result (λ status. IfSome (R.left source.old) (λ text.
        status ≡ (output_of order.now text).status)) }

    // The headline: an analysis that is done wrote the text of a model that fits the circuit and is exact.
    ensures exact { IfOk result (λ status. order.now ≡ Analyze → status ≡ Done
        → IfSome (R.left source.old) (λ text.
        (bytes : List ℕ) × Takes (W.taken sink.old) (W.taken sink.new) bytes
        × IsExactFor text bytes)) }

    // Its second half: a target that an analysis names as random differs under the two coin lists that it gives.
    ensures random { IfOk result (λ status. order.now ≡ Analyze → status ≡ Random
        → IfSome (R.left source.old) (λ text.
        (bytes : List ℕ) × Takes (W.taken sink.old) (W.taken sink.new) bytes
        × IsRandomFor text bytes)) }

    // Which half it is: a text that stands for a program is answered Random exactly where some target is random.
    ensures decided { IfOk result (λ status. order.now ≡ Analyze
        → IfSome (R.left source.old) (λ text. IsDecided text status)) }

    // The source failed, the sink failed, or there was no memory: a count goes up exactly where its source or sink failed.
    ensures fault { IfErr result (λ e. (e ≡ memory_fault) ⊎ (e ≡ read_fault) ⊎ (e ≡ write_fault)) }
    ensures reads { R.failures source.new ≡ read_failures result (R.failures source.old) }
    ensures writes { W.failures sink.new ≡ write_failures result (W.failures sink.old) }

    // Where the source failed nothing is written, though it had handed out all of its bytes.
    ensures silent { IfErr result (λ e. e ≡ read_fault → W.taken sink.new ≡ W.taken sink.old) }

    // After an error a beginning of the output is written, and none of it unless all was read.
    ensures rest { OnErr result (HandsOutSome (R.left source.old) (R.left source.new)) }
    ensures unread { OnErr result
        ((W.taken sink.new ≡ W.taken sink.old) ⊎ IsAtEnd (R.left source.new)) }
    ensures beginning { OnErr result (IfSome (R.left source.old) (λ text.
        TakesSome (W.taken sink.old) (W.taken sink.new) (output_of order.now text).bytes)) }
{
    serve_order(alloc, order, source, sink)
}

/// The same, said by when it failed. The text of a prediction is read by pieces.
fn serve_order<R: Source, W: Sink, A: Allocator + Copy>(
    alloc: A,
    order: &Order<'_>,
    source: &mut R,
    sink: &mut W,
) -> Result<Status, Fault>
    ensures { Serves R.left R.failures source.old source.new sink.old sink.new
        (λ text. AnswersOrder W.taken W.failures sink.old sink.new order.now text result) result }
{
    if let Order::Predict { lines } = *order {
        return serve_prediction(alloc, lines, source, sink);
    }
    let text = read_all(alloc, source)?;
    answer(alloc, order, text.as_slice(), sink)
}

/// Writes what an order asks of a circuit's text.
fn answer<W: Sink, A: Allocator + Copy>(
    alloc: A,
    order: &Order<'_>,
    text: &[u8],
    sink: &mut W,
) -> Result<Status, Fault>
    requires { is_prediction order.now ≡ false }
    ensures { AnswersOrder W.taken W.failures sink.old sink.new order.now text.now result }
{
    match *order {
        Order::Run { coins, faults } => answer_run(alloc, coins, faults, text, sink),
        Order::Analyze => answer_analysis(alloc, text, sink),
        Order::Faults => answer_faults(alloc, text, sink),
        Order::Predict { .. } => unreachable!(),
        Order::Sample { shots, seed } => {
            answer_shots(alloc, Shown::Records, shots, seed, text, sink)
        }
        Order::Detect { shots, seed } => {
            answer_shots(alloc, Shown::Detections, shots, seed, text, sink)
        }
    }
}
