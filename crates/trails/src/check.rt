//! Checking a list of records.
ghost use Rattle.std.specs.Prelude.{◌≡◌, length, Some};
ghost use Rattle.ground.specs.Refusals.{outcome};
ghost use Rattle.trails.specs.Trails.{refuses, list_refusal};

use crate::{Record, cost_between};
use cost::Cost;
use ground::Refusal;

const MOST_PLACES: usize = 256;

const MOST_RECORDS: usize = 1024;

/// Whether these records make a ground of `size` places. Refused with 1 over 256 places, with 2 over 1,024 records, and
/// otherwise for the earliest record that is refused: with 3 where a place of it is not on the ground, with 4 where its two
/// places are the same, with 5 where its cost is no way cost, and with 6 where an earlier record names its pair.
pub fn check_list<C: Cost>(size: usize, records: &[Record<C>]) -> Result<(), Refusal>
    ensures { result ≡ outcome (list_refusal C.Cost.way size records.now) }
{
    if size > MOST_PLACES {
        return Err(Refusal::SizeOutOfRange);
    }
    if records.len() > MOST_RECORDS {
        return Err(Refusal::WrongLength);
    }
    for (at, record) in records.iter().enumerate() {
        check_record(size, &records[..at], record)?;
    }
    Ok(())
}

// Whether the record may stand after the earlier ones.
fn check_record<C: Cost>(
    size: usize,
    earlier: &[Record<C>],
    record: &Record<C>,
) -> Result<(), Refusal>
    ensures { result ≡ outcome (refuses C.Cost.way size (length earlier.now) earlier.now (Some «record».now)) }
{
    let at = earlier.len();
    if record.from >= size || record.to >= size {
        return Err(Refusal::RecordOffGround { at });
    }
    if record.from == record.to {
        return Err(Refusal::RecordToItself { at });
    }
    if !record.cost.is_way_cost() {
        return Err(Refusal::RecordCost { at });
    }
    if cost_between(earlier, record.from, record.to).is_some() {
        return Err(Refusal::RecordRepeated { at });
    }
    Ok(())
}
