//! A small service that embeds the store: three clerks book payments in threads of their own, while
//! an administrator repairs a mistake beside them.
#![tactic(auto)]

use accounts::{CLERKS, catalog};
use error::ServiceError;
use service::serve;
use std::alloc::Global;
use std::io;
use std::marker::Brand;
use std::sync::{Arc, Wait};
use std::thread::Threads;
use summary::Summary;
use tt_store::Opened;

mod accounts;
mod administrator;
mod clerk;
mod error;
mod service;
mod summary;

fn main(rt: HostRuntime) -> io::Result<()> {
    match run(&rt, rt.alloc()) {
        Ok(summary) => summary.print(&rt),
        Err(error) => println!(rt; "the service has failed: {error}"),
    }
}

/// The service on a store of its own, with a worker for each clerk and one for the administrator.
fn run(rt: &(impl Threads + Wait + Sync), alloc: Global) -> Result<Summary, ServiceError> {
    let catalog = Arc::new(alloc, catalog(alloc)?)?;
    serve::<Brand, _>(rt, alloc, Opened::new(CLERKS + 1), catalog)
}
