//! What was counted.

use crate::status::SyncStatus;
use cc_connections::{SYNC_BOUNDS, SyncCounts};
use cc_views::NoMemory;
use std::alloc::Global;
use std::collections::BTreeMap;

/// Adds each count under its name, but for those of 0.
pub(crate) fn put_named(
    alloc: Global,
    names: &[&str],
    counts: &[u64],
    into: &mut BTreeMap<String, u64>,
) -> Result<(), NoMemory> {
    for (name, count) in names.iter().zip(counts) {
        if *count > 0 {
            put_one(alloc, name, *count, into)?;
        }
    }
    Ok(())
}

fn put_one(
    alloc: Global,
    name: &str,
    count: u64,
    into: &mut BTreeMap<String, u64>,
) -> Result<(), NoMemory> {
    let name = String::from_str(alloc, name)?;
    let _ = into.insert(name, count)?;
    Ok(())
}

/// Adds each bound with what is in the buckets up to it.
pub(crate) fn put_buckets(
    bounds: &[u64],
    buckets: &[u64],
    into: &mut Vec<(u64, u64)>,
) -> Result<(), NoMemory> {
    let mut seen: u64 = 0;
    for (bound, bucket) in bounds.iter().zip(buckets) {
        seen = seen.saturating_add(*bucket);
        into.push((*bound, seen))?;
    }
    Ok(())
}

/// How long syncs took.
pub(crate) fn put_syncs(syncs: &SyncCounts, status: &mut SyncStatus) -> Result<(), NoMemory> {
    status.count = syncs.count();
    status.total_us = syncs.total_us;
    status.mean_us = syncs.mean_us();
    status.p50_us = syncs.quantile_us(50);
    status.p99_us = syncs.quantile_us(99);
    status.worst_us = syncs.worst_us;
    put_buckets(&SYNC_BOUNDS, &syncs.buckets, &mut status.buckets)
}
