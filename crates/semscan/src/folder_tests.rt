//! A folder of the system, which is written and read.

use crate::folder::FolderTree;
use scan_world::{Tree, TreeFault};
use std::fs;
use std::test::Fail;

// No clause tells what a folder holds. A link in it is not followed, and is no file; what is hidden in it is not listed.
#[test]
fn reads_and_writes_the_current_folder(rt: HostRuntime) -> Result<(), Fail> {
    let _ = fs::remove_dir_all(&rt, "folder-of-a-test");
    let mut tree = FolderTree::new(rt);
    assert!(rt; tree.write("folder-of-a-test/b/c.py", b"f(1)\n") == Ok(()));
    assert!(rt; tree.write("folder-of-a-test/b.py", b"") == Ok(()));
    assert!(rt; tree.write("folder-of-a-test/b/c.py", b"g(2)\n") == Ok(()));
    assert!(rt; tree.write("folder-of-a-test/.hidden/e.py", b"") == Ok(()));
    assert!(rt; std::os::unix::fs::symlink(&rt, "b", "folder-of-a-test/d").is_ok());
    let rows = [
        (
            "folder-of-a-test",
            "folder-of-a-test/b.py folder-of-a-test/b/c.py ",
        ),
        ("folder-of-a-test/b.py", "folder-of-a-test/b.py "),
        ("folder-of-a-test/d", ""),
        ("folder-of-a-test/none", ""),
    ];
    for (prefix, wanted) in rows {
        let mut paths = String::new(rt.alloc());
        for path in tree.list(prefix)?.as_slice() {
            paths.push_str(path.as_str())?;
            paths.push(' ')?;
        }
        assert_eq!(rt; paths.as_str(), wanted);
    }
    assert!(rt; tree.read("folder-of-a-test/b/c.py", 1)?.as_slice() == b"g(".as_slice());
    assert!(rt; tree.read("folder-of-a-test/b/c.py", 9)?.as_slice() == b"g(2)\n".as_slice());
    assert!(rt; tree.read("folder-of-a-test/b", 9).err() == Some(TreeFault::Absent));
    assert!(rt; tree.read("folder-of-a-test/d/c.py", 9).err() == Some(TreeFault::Absent));
    assert!(rt; tree.write("folder-of-a-test/b", b"") == Err(TreeFault::Failed));
    assert!(rt; fs::remove_dir_all(&rt, "folder-of-a-test").is_ok());
    Ok(())
}
