//! The order of the rows: by data centre, data hall and zone.
use fy_locality::{Key, Map, ProcId};
use std::alloc::{AllocError, Global};

/// A row: the least process with its data centre, with its data hall and with its zone, and the
/// process itself. Rows are in this order.
#[derive(Clone, Copy, PartialEq, Eq, PartialOrd, Ord)]
pub(crate) struct Lane {
    pub data_center: u32,
    pub hall: u32,
    pub zone: u32,
    pub process: u32,
}

/// The least process without a value, of each key of a row.
#[derive(Drop)]
struct Valueless {
    data_center: Option<u32>,
    hall: Option<u32>,
    zone: Option<u32>,
}

/// The least process with the same value of a key as this one. Of those without a value it is the
/// one that was asked about first, which is kept.
fn first_like(map: &Map, p: ProcId, key: Key, valueless: &mut Option<u32>) -> u32 {
    match map.peers(p, key) {
        Some(peers) => match peers.least() {
            Some(first) => first.0,
            None => p.0,
        },
        None => *valueless.get_or_insert(p.0),
    }
}

/// A row for each process, in order.
pub(crate) fn lanes_of(alloc: Global, map: &Map) -> Result<Vec<Lane>, AllocError> {
    let mut lanes = Vec::new(alloc);
    let mut valueless = Valueless {
        data_center: None,
        hall: None,
        zone: None,
    };
    for process in 0..map.len() {
        let p = ProcId(process);
        lanes.push(Lane {
            data_center: first_like(map, p, Key::DataCenter, &mut valueless.data_center),
            hall: first_like(map, p, Key::DataHall, &mut valueless.hall),
            zone: first_like(map, p, Key::Zone, &mut valueless.zone),
            process,
        })?;
    }
    lanes.sort()?;
    Ok(lanes)
}

/// At which row each process stands, by its number.
pub(crate) fn rows_of(alloc: Global, lanes: &[Lane]) -> Result<Vec<usize>, AllocError> {
    let mut rows = vec![in alloc; 0; lanes.len()]?;
    for (row, lane) in lanes.iter().enumerate() {
        if let Some(place) = rows.get_mut(lane.process as usize) {
            *place = row;
        }
    }
    Ok(rows)
}
