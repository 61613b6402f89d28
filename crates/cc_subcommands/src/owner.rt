//! Whose folder it is.

use cc_checkpoint::OpenFault;
use cc_flush::{Back, Flusher};
use cc_site::{FileSite, NoOutlet, SiteFault};
use cc_views::NodeId;
use std::alloc::Global;
use std::fs::{File, Files};

/// The node of a folder, or why the folder can't be opened.
pub fn node_in_folder<R: Files<File = File>>(
    rt: &R,
    alloc: Global,
    folder: &str,
) -> Result<NodeId, OpenFault> {
    let site = match FileSite::open(rt, alloc, folder, NoOutlet) {
        Ok(site) => site,
        Err(SiteFault::Device(fault)) => return Err(OpenFault::Device(fault)),
        Err(SiteFault::NoMemory) => return Err(OpenFault::NoMemory),
    };
    match Flusher::open(alloc, site) {
        Ok((engine, core)) => {
            drop(engine);
            let me = core.me();
            drop(core);
            Ok(me)
        }
        Err(Back { site, fault }) => {
            drop(site);
            Err(fault)
        }
    }
}
