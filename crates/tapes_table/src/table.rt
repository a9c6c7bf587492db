// How often each set of keys is the sample.
use crate::choose::choose;
use crate::outcome::Counts;
use std::alloc::{AllocError, Global};

// A set of keys, and under how many tapes it is the sample. Rows are ordered by size, then by text.
#[derive(PartialEq, Eq, PartialOrd, Ord, Drop)]
struct Row {
    size: u64,
    text: String,
    tapes: u64,
}

#[derive(Drop)]
pub(crate) struct Table {
    rows: Vec<Row>,
    tapes: u64,
    counts: Counts,
}

// A set of keys as it is printed.
pub(crate) fn set_text(heap: Global, sample: &[String]) -> Result<String, AllocError> {
    let mut text = String::from_str(heap, "{")?;
    let mut between = "";
    for key in sample {
        text.push_str(between)?;
        text.push_str(key.as_str())?;
        between = ", ";
    }
    text.push_str("}")?;
    Ok(text)
}

impl Row {
    // The set's share by choose, times how often all choices come.
    fn share(&self, tapes: u64, counts: Counts) -> u64 {
        match counts.places.checked_sub(self.size) {
            Some(holes) => tapes.saturating_mul(choose(counts.unpaired, holes)),
            None => 0,
        }
    }
}

impl Table {
    pub(crate) fn new(heap: Global, tapes: u64, counts: Counts) -> Table {
        Table {
            rows: Vec::new(heap),
            tapes,
            counts,
        }
    }

    // Notes that this is the sample under one more tape.
    pub(crate) fn note(&mut self, size: u64, text: String) -> Result<(), AllocError> {
        if let Some(row) = self.rows.iter_mut().find(|row| row.text == text) {
            row.tapes = row.tapes.saturating_add(1);
            return Ok(());
        }
        self.rows.push(Row {
            size,
            text,
            tapes: 1,
        })?;
        Ok(())
    }

    // Whether N, d and L are those that the shares are worked out from.
    pub(crate) fn is_for(&self, counts: Counts) -> bool {
        self.counts == counts
    }

    // All ways to choose what stands: N keys and d holes on L places.
    fn choices(&self) -> u64 {
        choose(
            self.counts.live.saturating_add(self.counts.unpaired),
            self.counts.places,
        )
    }

    // Prints the rows, and whether they agree with choose.
    pub(crate) fn print(&mut self, rt: &impl Print) -> anyhow::Result<()> {
        self.rows.sort()?;
        let choices = self.choices().max(1);
        let mut tapes = 0u64;
        let mut shares = 0u64;
        let mut agree = true;
        println!(rt; " tapes   share  agree  sample")?;
        for row in self.rows.iter() {
            let share = row.share(self.tapes, self.counts);
            let same = share == row.tapes.saturating_mul(choices);
            print_row(rt, row.tapes, share / choices, same, row.text.as_str())?;
            tapes = tapes.saturating_add(row.tapes);
            shares = shares.saturating_add(share);
            agree = agree && same;
        }
        // a set that is missing above would be missing from the sum of the shares
        let same = tapes == self.tapes && shares == tapes.saturating_mul(choices);
        print_row(rt, tapes, shares / choices, same, "all of these")?;
        if agree && same {
            println!(rt; "each of these sets has its share, and none is left for another")?;
        } else {
            println!(rt; "NOT EVEN")?;
        }
        Ok(())
    }
}

fn print_row(
    rt: &impl Print,
    tapes: u64,
    share: u64,
    same: bool,
    text: &str,
) -> anyhow::Result<()> {
    let agrees = if same { "yes" } else { "NO " };
    println!(rt; "{tapes:>6}  {share:>6}  {agrees}    {text}")?;
    Ok(())
}
