//! Holds both cyclic redundancy checks to published vectors, and says of each whether it agrees.
#![tactic(auto)]

mod published;
mod vector;

use anyhow::anyhow;
use published::VECTORS;

/// Reports every vector, then how many agree; an error where one differs.
fn run(rt: &impl Print) -> anyhow::Result<()> {
    for vector in &VECTORS {
        vector.report(rt)?;
    }
    let agreed = VECTORS.iter().filter(|vector| vector.agrees()).count();
    let all = VECTORS.len();
    println!(rt; "{agreed} of {all} agree")?;
    if agreed < all {
        return Err(anyhow!("a check differs from the published one"));
    }
    Ok(())
}

fn main(rt: HostRuntime) -> anyhow::Result<()> {
    run(&rt)
}
