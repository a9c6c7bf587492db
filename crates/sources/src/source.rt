// The one interface of draw sources.
ghost use Rattle.std.specs.Prelude.{◌≡◌, ℕ, ◌<◌, true, not, List, ◌∷◌, is_err, IfOk};
ghost use Rattle.sources.specs.Answers.{answered, refused_by, lawful_radix};
ghost use Rattle.sources.specs.Courses.{Course, before};

use crate::faults::SourceFault;

pub trait Source {
    // what the source gives, for each list of radices
    ghost course: { Self → Course };

    // The answer is the first of the course, and the course afterwards is what followed it; a refusal leaves it as it was.
    fn draw(&mut self, radix: u16) -> Result<u16, SourceFault>
        ensures answer { (radices : List ℕ) → (course self.old).gives (radix ∷ radices) ≡ before (answered result) ((course self.new).gives radices) }
        ensures unchanged { is_err result ≡ true → (course self.new).gives ≡ (course self.old).gives }
        ensures below { IfOk result (λ draw. draw < radix) }
        ensures asked { refused_by 16 (answered result) ≡ not (lawful_radix radix) };
}
