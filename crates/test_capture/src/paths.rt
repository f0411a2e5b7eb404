//! Where paths lead, in a folder of a real file system.

use cli_files::paths::{FileId, Target, target_of};
use std::fs::Files;
use std::os::unix::fs::MetadataExt;
use std::process::Abort;
use std::{fs, process};

/// A path leads there.
fn leads_to(rt: &(impl Abort + AllocGlobal + Files), path: &str, wanted: Option<Target>) {
    let target = target_of(rt, path).expect(rt, "the system says");
    assert_eq!(rt; target, wanted);
}

/// The device and the inode of what is there.
fn id_of(rt: &(impl Abort + AllocGlobal + Files), path: &str) -> FileId {
    let metadata = fs::metadata(rt, path).expect(rt, "it is there");
    FileId {
        device: metadata.dev(),
        inode: metadata.ino(),
    }
}

#[test]
fn a_file_is_known_by_its_device_and_its_inode(rt: HostRuntime) {
    let path = format!(in rt.alloc(); "/tmp/bpftap-file-{}", process::id(rt.process()));
    let path = path.expect(&rt, "memory");
    let written = fs::write(&rt, path.as_str(), b"".as_slice());
    written.expect(&rt, "it is written");
    let file = id_of(&rt, path.as_str());
    leads_to(&rt, path.as_str(), Some(Target::File(file)));
    fs::remove_file(&rt, path.as_str()).expect(&rt, "it is removed");
}

#[test]
fn a_file_of_another_device_is_another_one(rt: HostRuntime) {
    let file = id_of(&rt, "/tmp");
    let device = file.device ^ 1;
    assert!(rt; file != FileId { device, ..file });
}

#[test]
fn a_device_and_a_folder_are_no_files(rt: HostRuntime) {
    leads_to(&rt, "/dev/null", None);
    leads_to(&rt, "/tmp", None);
}

/// A file of this name would be made in the folder, by a path that begins so.
fn is_made_in(rt: &(impl Abort + AllocGlobal + Files), folder: FileId, front: &str, name: &str) {
    let path = format!(in rt.alloc(); "{front}{name}").expect(rt, "memory");
    let made = name.to_string(rt.alloc()).expect(rt, "memory");
    leads_to(rt, path.as_str(), Some(Target::New(folder, made)));
    // Nothing can be made below a name that is not there, nor without a name.
    leads_nowhere(rt, path.as_str(), "/new");
    leads_nowhere(rt, path.as_str(), "/");
}

fn leads_nowhere(rt: &(impl Abort + AllocGlobal + Files), path: &str, behind: &str) {
    let path = format!(in rt.alloc(); "{path}{behind}").expect(rt, "memory");
    leads_to(rt, path.as_str(), None);
}

#[test]
fn a_new_file_is_known_by_its_folder_and_its_name(rt: HostRuntime) {
    let folder = id_of(&rt, "/tmp");
    let name = format!(in rt.alloc(); "bpftap-new-{}", process::id(rt.process()));
    let name = name.expect(&rt, "memory");
    is_made_in(&rt, folder, "/tmp/", name.as_str());
    is_made_in(&rt, folder, "/tmp//", name.as_str());
    is_made_in(&rt, folder, "/tmp/.././tmp/", name.as_str());
}
