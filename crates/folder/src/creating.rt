// A new store.
use crate::disk::Disk;
use crate::failure::{Failure, Why};
use crate::folder::FOLDERS;
use layout::{days_folder, write_machines};
use std::alloc::Global;
use store::MACHINES;

// The path of a part of a store.
fn part(heap: Global, root: &str, name: &str) -> Result<String, Failure> {
    Ok(format!(in heap; "{root}/{name}")?)
}

impl Disk {
    // A folder that is there then, whether it was before or not.
    fn have_folder(&self, path: &str) -> Result<(), Failure> {
        if self.is_there(path)? {
            return self.check_folder(path);
        }
        self.new_folder(path)
    }

    fn have_folders(&self, root: &str) -> Result<(), Failure> {
        for name in FOLDERS {
            self.have_folder(&part(self.heap, root, name)?)?;
        }
        for machine in 0..MACHINES {
            let days = days_folder(self.heap, machine)?;
            self.have_folder(&part(self.heap, root, &days)?)?;
        }
        self.sync(&part(self.heap, root, "d")?)?;
        self.sync(root)
    }
}

// Makes a store with these machines on its list, in a folder that is made where it is not there. The list comes last: with it the folder is a store.
pub fn create(rt: &HostRuntime, root: &str, machines: &[u8]) -> Result<(), Failure> {
    let disk = Disk::new(rt)?;
    disk.have_folder(root)?;
    let list = part(disk.heap, root, layout::MACHINES_FILE)?;
    if disk.is_there(&list)? {
        return Err(Failure::new(disk.heap, &list, Why::IsStore));
    }
    disk.have_folders(root)?;
    let text = write_machines(disk.heap, machines)?;
    let first = part(disk.heap, root, "t/machines")?;
    disk.write_new(&first, &text)?;
    if !disk.rename_new(&first, &list)? {
        return Err(Failure::new(disk.heap, &list, Why::IsStore));
    }
    disk.sync(root)?;
    disk.sync_if_open(&part(disk.heap, root, "..")?)
}
