// The crash explorer: plays a script of a ledger over each shape of pile, cuts power at every write of it and of every
// opening after it, and holds what is found to what must stand. The proofs say the same of the code; this tries what
// the compilers make of it.

#![tactic(auto)]

mod exploring;
mod opening;
mod piles;
mod playing;
mod script;
mod trouble;

use exploring::Explorer;
use piles::Shape;

// Explores piles of one shape, and tells how much was tried.
fn tell(rt: &HostRuntime, shape: Shape) -> anyhow::Result<()> {
    let mut explorer = Explorer::new(rt.alloc(), shape);
    explorer.explore()?;
    let Explorer {
        scripts,
        openings,
        ..
    } = explorer;
    println!(rt;
        "{shape}: {scripts} cuts of the script, {openings} of openings after it, and all agreed"
    )?;
    Ok(())
}

fn main(rt: HostRuntime) -> anyhow::Result<()> {
    for shape in Shape::ALL {
        tell(&rt, shape)?;
    }
    Ok(())
}
