// Answers as one number, as a C program has them.
ghost use Rattle.std.specs.Prelude.{◌≡◌};
ghost use Rattle.logger.specs.Calls.{number_status};

use refusal::Refusal;

// The number that is answered, or the number of the refusal below zero. No refusal has the number 0.
pub(crate) fn status(answer: Result<u8, Refusal>) -> i32
    ensures { result ≡ number_status answer }
{
    match answer {
        Ok(number) => i32::from(number),
        Err(refusal) => -i32::from(refusal.number()),
    }
}
