use dstm_core::{Event, Kind};
use std::alloc::{AllocError, Global};

// An event in a table: its caller and kind, the place, and the words expected, found and put.
pub type Row = (u32, Kind, u64, u64, u64, u64);

pub fn event_of(row: Row) -> Event {
    let (caller, kind, place, expected, found, put) = row;
    Event {
        caller,
        kind,
        place,
        expected,
        found,
        put,
    }
}

pub fn events_of(alloc: Global, rows: &[Row]) -> Result<Vec<Event>, AllocError> {
    rows.iter().map(|row| event_of(*row)).collect(alloc)
}
