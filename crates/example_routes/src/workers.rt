//! Workers that publish routes, each the routes to its own destinations, and keep the versions that are replaced.
use crate::input::Line;
use crate::routes::{Kept, Routes, publish};
use std::alloc::{AllocError, Global};
use std::io;
use std::sync::Wait;
use std::thread::{Threads, map_indices};

/// The number of workers.
const WORKERS: u64 = 4;

/// The routes, and how many replaced versions were kept.
#[derive(Drop)]
pub struct Published {
    pub routes: Routes,
    pub kept: u64,
}

/// Publishes the worker's routes of `line`, and adds each replaced version to `kept`, with the hop that it had then.
fn publish_line<R: Wait>(
    rt: &R,
    routes: &Routes,
    line: Line,
    worker: u64,
    kept: &mut Vec<(Kept, u64)>,
) -> io::Result<()> {
    for offset in 0..line.count {
        let destination = line.first.wrapping_add(offset);
        if destination % WORKERS == worker {
            if let Some(old) = publish(rt, routes, destination, line.hop)? {
                let hop = *old.value();
                kept.push((old, hop)).map_err(AllocError::from)?;
            }
        }
    }
    Ok(())
}

/// Publishes the worker's routes in their order, and returns how many kept versions are what they were.
fn publish_part<R: Wait>(
    rt: &R,
    alloc: Global,
    routes: &Routes,
    lines: &[Line],
    worker: u64,
) -> io::Result<u64> {
    let mut kept = Vec::new(alloc);
    for line in lines {
        publish_line(rt, routes, *line, worker, &mut kept)?;
    }
    let mut same = 0u64;
    for (version, hop) in kept.iter() {
        if *version.value() == *hop {
            same = same.saturating_add(1);
        }
    }
    Ok(same)
}

/// Lets the workers publish all routes.
pub fn publish_all<R: Threads + Sync + Wait>(
    rt: &R,
    alloc: Global,
    lines: &[Line],
) -> io::Result<Published> {
    let routes = Routes::new(alloc)?;
    let parts = map_indices(
        rt,
        alloc,
        WORKERS as usize,
        &|worker| { publish_part(rt, alloc, &routes, lines, worker as u64) },
    )?;
    let mut kept = 0u64;
    for part in parts {
        kept = kept.saturating_add(part?);
    }
    Ok(Published { routes, kept })
}

/// Adds a route behind `lines`: to the last line if that ends before `destination` and has the same hop, else as a line
/// of its own.
fn add_route(lines: &mut Vec<Line>, destination: u64, hop: u64) -> Result<(), AllocError> {
    if let Some(last) = lines.last_mut() {
        if last.hop == hop && last.first.wrapping_add(last.count) == destination {
            last.count = last.count.saturating_add(1);
            return Ok(());
        }
    }
    lines.push(Line {
        first: destination,
        hop,
        count: 1,
    })?;
    Ok(())
}

/// Returns the routes, by destination, as few lines.
pub fn listed<R: Wait>(rt: &R, alloc: Global, routes: &Routes) -> io::Result<Vec<Line>> {
    let mut pairs = Vec::new(alloc);
    for version in routes.iter(rt)? {
        pairs
            .push((*version.key(), *version.value()))
            .map_err(AllocError::from)?;
    }
    pairs.as_mut_slice().sort_unstable();
    let mut lines = Vec::new(alloc);
    for (destination, hop) in pairs {
        add_route(&mut lines, destination, hop)?;
    }
    Ok(lines)
}
