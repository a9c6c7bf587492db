// The settings of a roster and its sample, and their opening.
ghost use Rattle.std.specs.Prelude.{◌≡◌, true};
ghost use Rattle.bottoms.specs.Bottoms.{bottom_meaning, opened};
ghost use Rattle.layers.specs.Layers.{filtered, fronted};
ghost use Rattle.pile.specs.Meaning.{New};
ghost use Rattle.pile.specs.Opening.{taken_size};

use bottoms::Paired;
use layers::{ClassFilter, Front};
use pile::{Pile, ask_bound, ask_classes, ask_front};
use roster::ask_capacity;

pub(crate) type Sample = Front<ClassFilter<Paired>>;

// As many as a roster can use.
pub(crate) const RECORDS: usize = 1024;

#[derive(Clone, Copy)]
pub(crate) enum Kind {
    Numbers,
    Names,
}

// What a line sets.
#[derive(Clone, Copy)]
pub(crate) enum Setting {
    Capacity(u16),
    Bound(u8),
    // bit c for class c
    Classes(u8),
    Front(u8),
    Kind(Kind),
}

#[derive(Clone, Copy)]
pub(crate) struct Settings {
    pub capacity: u16,
    pub bound: u8,
    pub classes: u8,
    pub front: u8,
    pub kind: Kind,
}

impl Settings {
    // All the records; sixteen places, since a station usually drives sixteen trains; all classes; a front that hides nothing.
    pub(crate) fn usual() -> Settings {
        Settings {
            capacity: 1024,
            bound: 16,
            classes: 255,
            front: 64,
            kind: Kind::Names,
        }
    }

    // Takes a setting, and says by which number it does not pass.
    pub(crate) fn set(
        &mut self,
        rt: &impl Print,
        line: usize,
        setting: Setting,
    ) -> anyhow::Result<()> {
        match setting {
            Setting::Capacity(capacity) => {
                self.capacity = capacity;
                if let Err(fault) = ask_capacity(capacity, RECORDS) {
                    println!(rt; "line {line}: refused {fault}")?;
                }
            }
            Setting::Bound(bound) => {
                self.bound = bound;
                if let Err(fault) = ask_bound(bound) {
                    println!(rt; "line {line}: refused {fault}")?;
                }
            }
            Setting::Classes(classes) => {
                self.classes = classes;
                if let Err(fault) = ask_classes(classes) {
                    println!(rt; "line {line}: refused {fault}")?;
                }
            }
            Setting::Front(front) => {
                self.front = front;
                if let Err(fault) = ask_front(front) {
                    println!(rt; "line {line}: refused {fault}")?;
                }
            }
            Setting::Kind(kind) => self.kind = kind,
        }
        Ok(())
    }

    // What does not pass counts as 1, or as no class.
    pub(crate) fn open_sample(&self) -> Sample
        ensures meaning { fronted result.size (filtered result.below.classes (bottom_meaning result.below.below))
            ≡ fronted (taken_size self.now.front) (filtered self.now.classes (opened true self.now.bound)) }
        ensures new { New (fronted result.size (filtered result.below.classes (bottom_meaning result.below.below))) }
    {
        Front::new(
            self.front,
            ClassFilter::new(self.classes, Paired::new(self.bound)),
        )
    }

    pub(crate) fn say(&self, rt: &impl Print) -> anyhow::Result<()> {
        let capacity = ask_capacity(self.capacity, RECORDS).unwrap_or(0);
        let sample = self.open_sample();
        let bound = sample.bound();
        print!(rt;
            "a roster of at most {capacity} keys, a sample on at most {bound} places, of the classes"
        )?;
        for class in (0..8u8).filter(|class| sample.counts_class(*class)) {
            print!(rt; " {class}")?;
        }
        println!(rt; "")?;
        Ok(())
    }
}
