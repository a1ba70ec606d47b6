use std::alloc::AllocError;
use std::fs;

/// A folder, on which each call of a journal fails.
const NO_FILE: &str = "/";

/// The path of the journal of a lane in a store. Where the store is no folder, the path is one on which each call fails.
/// A missing file is an empty disk: no journal is made of it but by `format`, so that a store which lost a file never
/// begins counters anew.
pub fn lane_file(rt: &HostRuntime, store: &str, lane: u16) -> Result<String, AllocError> {
    let alloc = rt.alloc();
    if !is_folder(rt, store) {
        return String::from_str(alloc, NO_FILE);
    }
    format!(in alloc; "{store}/lane-{lane}.log")
}

fn is_folder(rt: &HostRuntime, path: &str) -> bool {
    match fs::metadata(rt, path) {
        Ok(found) => found.is_dir(),
        Err(_) => false,
    }
}
