//! Sinks in memory and over writers, call by call.
use super::{MemSink, OutSink, Sink, SinkError};
use std::io;
use std::io::Write;
use std::test::Fail;

/// A writer that takes at most two bytes at a time, and at its fourth write nothing or an error.
#[derive(Drop)]
struct Slow<'a> {
    got: &'a mut Vec<u8>,
    writes: u8,
    errs: bool,
}

impl Write for Slow<'_> {
    fn write(&mut self, buf: &[u8]) -> io::Result<usize> {
        self.writes = self.writes.saturating_add(1);
        if self.writes == 4 {
            return if self.errs {
                Err(io::Error::from(io::ErrorKind::BrokenPipe))
            } else {
                Ok(0)
            };
        }
        let count = buf.len().min(2);
        self.got.extend_from_slice(&buf[..count])?;
        Ok(count)
    }

    fn flush(&mut self) -> io::Result<()> {
        Ok(())
    }
}

#[test]
fn a_sink_in_memory_takes_all_and_fails_by_its_list(rt: HostRuntime) -> Result<(), Fail> {
    let mut sink = MemSink::new(rt.alloc(), vec![in rt.alloc(); 2, 5]?);
    let rows: [(&[u8], Result<(), SinkError>, &[u8]); 5] = [
        (b"one ", Ok(()), b"one "),
        (b"two ", Err(SinkError::Failed), b"one "),
        (b"", Ok(()), b"one "),
        (b"three", Ok(()), b"one three"),
        (b"", Err(SinkError::Failed), b"one three"),
    ];
    for (bytes, want, taken) in rows {
        assert_eq!(rt; sink.put(bytes), want, "at {bytes:?}");
        assert_eq!(rt; sink.taken(), taken, "at {bytes:?}");
    }
    Ok(())
}

#[test]
fn an_output_takes_all_but_where_its_writer_fails(rt: HostRuntime) -> Result<(), Fail> {
    let mut got = Vec::new(rt.alloc());
    let mut sink = OutSink::new(&mut got);
    assert_eq!(rt; sink.put(b"a line\n"), Ok(()));
    assert_eq!(rt; sink.put(b""), Ok(()));
    assert_eq!(rt; got.as_slice(), b"a line\n".as_slice());
    let mut got = Vec::new(rt.alloc());
    let large = vec![in rt.alloc(); b'x'; 100_000]?;
    assert_eq!(rt; OutSink::new(&mut got).put(&large), Ok(()), "a long text");
    assert_eq!(rt; got, large, "a long text");
    for errs in [true, false] {
        let mut got = Vec::new(rt.alloc());
        let mut sink = OutSink::new(Slow {
            got: &mut got,
            writes: 0,
            errs,
        });
        assert_eq!(rt; sink.put(b"123"), Ok(()), "before the fault");
        assert_eq!(rt; sink.put(b"6789"), Err(SinkError::Failed), "errs {errs}");
        assert_eq!(rt; sink.put(b"abc"), Ok(()), "after the fault");
        assert_eq!(rt; got.as_slice(), b"12367abc".as_slice());
    }
    Ok(())
}
