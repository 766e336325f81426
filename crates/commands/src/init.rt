// Makes a new store.
use crate::opening::store_folder;
use crate::trouble::Trouble;
use folder::create;

pub fn init(rt: &HostRuntime, named: Option<&str>, machines: &[u8]) -> Result<(), Trouble> {
    let root = store_folder(rt, named)?;
    if let Err(failure) = create(rt, root.as_str(), machines) {
        return Err(Trouble::failed(rt.alloc(), &failure));
    }
    let count = machines.len();
    println!(rt; "store {root}\nmachines {count}").map_err(Trouble::output)
}
