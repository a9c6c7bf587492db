// Draws for a list of radices, from any source.
ghost use Rattle.std.specs.Prelude.{◌≡◌, ℕ, ◌<◌, List, ◌++◌, length, take, slice_index};
ghost use Rattle.sources.specs.Courses.{all_before};
ghost use Rattle.sources.specs.Drawing.{given_for, put_front, told_refusal};

use crate::faults::SourceFault;
use crate::source::Source;

// How many draws were given, and the refusal that ended them, if any. No `Result`: after a refusal the count is wanted too. The draws
// themselves stand in the memory that the host lent.
#[derive(Clone, Copy)]
pub struct Drawn {
    pub count: usize,
    pub refusal: Option<SourceFault>,
}

// Draws for the radices in order, as far as the list of draws has room, up to the first refusal.
pub fn draw_all<S: Source>(source: &mut S, radices: &[u16], draws: &mut [u16]) -> Drawn
    ensures count { result.count ≡ length (given_for (S.course source.old) radices.now draws.old).draws }
    ensures refusal { told_refusal result.refusal ≡ (given_for (S.course source.old) radices.now draws.old).refusal }
    ensures draws { draws.new ≡ put_front (given_for (S.course source.old) radices.now draws.old).draws draws.old }
    ensures below { (k : ℕ) → k < result.count → slice_index draws.new k < slice_index radices.now k }
    ensures after { (more : List ℕ) → (S.course source.old).gives (take result.count radices.now ++ more) ≡ all_before (take result.count draws.new) ((S.course source.new).gives more) }
{
    let count = radices.len().min(draws.len());
    // the draws go in by index (tried: of draws lent to `zip` nothing is known once the loop is over)
    for (i, &radix) in radices[..count].iter().enumerate() {
        match source.draw(radix) {
            Ok(draw) => draws[i] = draw,
            Err(fault) => {
                return Drawn {
                    count: i,
                    refusal: Some(fault),
                };
            }
        }
    }
    Drawn {
        count,
        refusal: None,
    }
}
