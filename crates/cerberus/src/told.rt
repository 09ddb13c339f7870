// What C is told of an answer that stands behind one pointer.
ghost use Rattle.std.specs.Prelude.{◌≡◌};
ghost use Rattle.refusal.specs.Steps.{outcome};
ghost use Rattle.c_encoding.specs.Answers.{told};

use refusal::Refusal;

// Keeps an accepted call's value in its place, and answers the call's number.
pub(crate) fn keep<T: Copy>(answer: Result<T, Refusal>, place: &mut T) -> u8
    ensures { outcome result place.new ≡ told answer place.old }
{
    match answer {
        Ok(value) => {
            *place = value;
            0
        }
        Err(why) => why.number(),
    }
}
