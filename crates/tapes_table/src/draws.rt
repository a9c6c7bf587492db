// All tapes in turn. Each is one draw for each entry, below the radix that the entry called for.
use pile::EntryReceipt;
use sources::write_record;
use std::alloc::{AllocError, Global};

// The radices, with the draws of the tape whose turn it is.
#[derive(Drop)]
pub(crate) struct Draws {
    pub entries: Vec<EntryReceipt>,
}

impl Draws {
    // The first tape has no draw above 0.
    pub(crate) fn first(heap: Global, receipts: &[EntryReceipt]) -> Result<Draws, AllocError> {
        let mut entries = Vec::new(heap);
        for receipt in receipts {
            entries.push(EntryReceipt {
                draw: 0,
                ..*receipt
            })?;
        }
        Ok(Draws { entries })
    }

    // How many tapes there are: the product of the radices.
    pub(crate) fn count(&self) -> u64 {
        self.entries.iter().fold(
            1u64,
            |count, entry| count.saturating_mul(u64::from(entry.radix)),
        )
    }

    // The next tape: the last draw that can goes up, and those after it begin again.
    pub(crate) fn advance(&mut self) {
        for entry in self.entries.iter_mut().rev() {
            if entry.draw < entry.radix.saturating_sub(1) {
                entry.draw += 1;
                return;
            }
            entry.draw = 0;
        }
    }

    // The tape's records.
    pub(crate) fn records(&self, heap: Global) -> Result<Vec<u8>, AllocError> {
        let mut bytes = Vec::new(heap);
        for entry in self.entries.iter() {
            let mut record = [0; 6];
            // six bytes are free, so this is never refused
            let _ = write_record(*entry, &mut record, 0);
            bytes.extend_from_slice(&record)?;
        }
        Ok(bytes)
    }
}
