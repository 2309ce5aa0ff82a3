//! A test of reads past the kernel's cache, over readers that refuse some.
use real_files::direct::AlignedRoom;
use std::io::{self, ErrorKind, Read};
use std::test::Fail;

/// How many places of a room are tried.
const PLACES: usize = 256;

/// A reader that first refuses reads, and then gives the numbers from 0 on.
#[derive(Drop)]
struct Disk {
    refuses: usize,
    calls: usize,
}

impl Read for Disk {
    fn read(&mut self, buf: &mut [u8]) -> io::Result<usize> {
        self.calls = self.calls.wrapping_add(1);
        if self.refuses > 0 {
            self.refuses -= 1;
            return Err(ErrorKind::InvalidInput.into());
        }
        for (place, byte) in buf.iter_mut().enumerate() {
            *byte = (place % 251) as u8;
        }
        Ok(buf.len())
    }
}

fn room(rt: &HostRuntime) -> Result<AlignedRoom, Fail> {
    Ok(AlignedRoom::new(vec![in rt.alloc(); 0; 16384]?))
}

#[test]
fn a_refused_read_is_made_at_another_place(rt: HostRuntime) -> Result<(), Fail> {
    let mut found = room(&rt)?;
    let mut disk = Disk {
        refuses: 3,
        calls: 0,
    };
    let mut buf = [0u8; 100];
    let given = found.read(&mut disk, 512, 100, &mut buf);
    assert_eq!(rt; given.ok(), Some(100));
    assert_eq!(rt; disk.calls, 4);
    assert!(rt; buf[0] == 100 && buf[99] == 199);
    // A place that gave bytes is the only one that is tried from then on.
    disk.refuses = 1;
    let refused = found.read(&mut disk, 512, 0, &mut buf);
    assert!(rt; refused.is_err());
    assert_eq!(rt; disk.calls, 5);
    // A room that is refused at each place isn't tried again.
    let mut shut = room(&rt)?;
    disk.refuses = usize::MAX;
    for _ in 0..2 {
        let refused = shut.read(&mut disk, 512, 0, &mut buf);
        assert!(rt; matches!(refused, Err(error) if error.kind() == ErrorKind::InvalidInput));
        assert_eq!(rt; disk.calls, 5 + PLACES);
    }
    Ok(())
}
