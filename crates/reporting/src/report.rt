ghost use Rattle.std.specs.Prelude.{◌≡◌};
ghost use Rattle.model.specs.Calls.{number_of, values_of};

use model::answer::Answer;

// What a caller in C sees of an answer: the number returned, 0 or the refusal's, and the lent words, which a refusal leaves alone.
// `steps` counts the steps of a plan.
#[tactic(auto, unfolding(model::specs::Calls::number_of, model::specs::Calls::values_of))]
pub fn report(answer: Answer, steps: usize, values: &mut [u64; 4]) -> u32
    ensures value { result ≡ number_of answer }
    ensures values_after { values.new ≡ values_of answer steps values.old }
{
    *values = match answer {
        Answer::Rows(count, width) => [1, count, u64::from(width), 0],
        Answer::None => [2, 0, 0, 0],
        Answer::Built(used) => [3, u64::from(used), 0, 0],
        Answer::Plan => [4, steps as u64, 0, 0],
        Answer::Yes => [5, 0, 0, 0],
        Answer::No => [6, 0, 0, 0],
        Answer::Refused(number) => return number,
    };
    0
}
