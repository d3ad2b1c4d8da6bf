// What is written of answers and of tables, into a writer that a caller brings, and what `run` prints.
use super::*;
use std::alloc::Allocator;
use std::cell::Cell;
use std::io::{BufRead, Write};
use std::{fmt, io};

// Answers a line that has a name by its words, and counts what it is asked.
#[derive(Drop)]
struct Echo {
    stores: usize,
    answers: usize,
}

impl Echo {
    fn new() -> Echo {
        Echo {
            stores: 0,
            answers: 0,
        }
    }
}

impl Replay for Echo {
    fn store(&mut self, _line: &Line<'_>) -> bool {
        self.stores = self.stores.saturating_add(1);
        false
    }

    fn answer(&mut self, line: &Line<'_>) -> Option<Words> {
        self.answers = self.answers.saturating_add(1);
        if line.name.is_empty() {
            None
        } else {
            Some(line.given)
        }
    }
}

#[test]
fn answers_are_written(rt: HostRuntime) -> io::Result<()> {
    let mut out = Vec::new(rt.alloc());
    print_answer(&mut out, Some(Words::answered().with_float(1.0)))?;
    print_answer(&mut out, None)?;
    assert_eq!(rt; out.as_slice(), b"00000000 3F800000\nunread\n".as_slice());
    Ok(())
}

// Of a table of 18 places, the last 17: a full line and one of a single word. No line where no place is
// lent, or none that is there; a whole line where its first place is lent.
#[test]
fn tables_are_written(rt: HostRuntime) -> io::Result<()> {
    let mut out = Vec::new(rt.alloc());
    print_table(&mut out, &[-0.0f32; 18], 1, 18)?;
    print_table(&mut out, &[1u32, 2], 0, 0)?;
    print_table(&mut out, &[1u32, 2], 2, 9)?;
    print_table(&mut out, &[7u32, 10, 255], 1, 2)?;
    let full =
        b"80000000 80000000 80000000 80000000 80000000 80000000 80000000 80000000 80000000 80000000 80000000 80000000 80000000 80000000 80000000 80000000\n";
    assert_eq!(rt; out.as_slice().len(), full.len() + 9 + 18);
    assert!(rt; out.as_slice().starts_with(full));
    assert!(rt; out.as_slice().ends_with(b"\n80000000\n0000000A 000000FF\n"));
    Ok(())
}

#[test]
fn lines_are_answered(rt: HostRuntime) -> io::Result<()> {
    let mut out = Vec::new(rt.alloc());
    let mut echo = Echo::new();
    let given = Words::none().with(42);
    echo.print(
        &mut out,
        &Line {
            name: b"say",
            given,
        },
    )?;
    echo.print(&mut out, &Line { name: b"", given })?;
    assert_eq!(rt; out.as_slice(), b"0000002A\nunread\n".as_slice());
    assert_eq!(rt; (echo.stores, echo.answers), (0, 2));
    Ok(())
}

// A writer that has no place for all of an answer.
#[test]
fn full_writers_are_told(rt: HostRuntime) {
    let mut places = [0u8; 6];
    let words = Words::answered();
    assert!(rt; print_answer(&mut places.as_mut_slice(), Some(words)).is_err());
    assert!(rt; print_answer(&mut places.as_mut_slice(), None).is_err());
    assert!(rt; print_table(&mut places.as_mut_slice(), &[7u32; 17], 0, 17).is_err());
    let line = Line {
        name: b"say",
        given: words,
    };
    assert!(rt;
        Echo::new()
            .print(&mut places.as_mut_slice(), &line)
            .is_err()
    );
}

// Stores what has the name `set`, and has a `print` of its own, which fails of a line without a name.
#[derive(Drop)]
struct Counting {
    stored: usize,
    prints: usize,
}

impl Replay for Counting {
    fn store(&mut self, line: &Line<'_>) -> bool {
        match line.name {
            b"set" => self.stored = self.stored.saturating_add(1),
            _ => return false,
        }
        true
    }

    fn answer(&mut self, _line: &Line<'_>) -> Option<Words> {
        None
    }

    fn print(&mut self, out: &mut impl Write, line: &Line<'_>) -> io::Result<()> {
        self.prints = self.prints.saturating_add(1);
        if line.name.is_empty() {
            return Err(io::Error::from(io::ErrorKind::InvalidInput));
        }
        out.write_all(line.name)?;
        out.write_all(b" counted\n")
    }
}

// A runtime with a text for its standard input, and places for what is printed.
#[derive(Drop)]
struct TestRuntime<'a> {
    text: &'a [u8],
    printed: Cell<[u8; 64]>,
    count: Cell<usize>,
}

impl<'a> TestRuntime<'a> {
    fn of(text: &'a [u8]) -> TestRuntime<'a> {
        TestRuntime {
            text,
            printed: Cell::new([0; 64]),
            count: Cell::new(0),
        }
    }
}

impl<'a> Input for TestRuntime<'a> {
    type Reader = &'a [u8];

    fn read_line<A: Allocator + Clone>(&self, buf: &mut String<A>) -> io::Result<usize> {
        self.reader().read_line(buf)
    }

    fn lines<A: Allocator>(&self, alloc: A) -> io::Lines<&'a [u8], A> {
        self.reader().lines(alloc)
    }

    fn reader(&self) -> &'a [u8] {
        self.text
    }
}

impl Print for TestRuntime<'_> {
    fn print<D: fmt::Display + Drop>(&self, _value: D) -> io::Result<()> {
        self.write_all(b"by print")
    }

    fn println<D: fmt::Display + Drop>(&self, _value: D) -> io::Result<()> {
        self.write_all(b"by println\n")
    }

    fn write_all(&self, bytes: &[u8]) -> io::Result<()> {
        let mut printed = self.printed.get();
        let at = self.count.get();
        if bytes.len() > printed.len().saturating_sub(at) {
            return Err(io::Error::from(io::ErrorKind::StorageFull));
        }
        text::put(&mut printed, at, bytes);
        self.printed.set(printed);
        self.count.set(at.saturating_add(bytes.len()));
        Ok(())
    }
}

// What has a `print` of its own is printed by it, and a line whose words can't be read is stored too.
#[test]
fn own_lines_are_printed(rt: HostRuntime) -> io::Result<()> {
    let runtime = TestRuntime::of(b"say 00000001\nset 00000001\nset x\nsay x\n");
    let mut counting = Counting {
        stored: 0,
        prints: 0,
    };
    run(&(&runtime, rt.alloc()), &mut counting)?;
    assert_eq!(rt; (counting.stored, counting.prints), (2, 2));
    assert_eq!(rt; runtime.count.get(), 24);
    assert!(rt;
        runtime
            .printed
            .get()
            .starts_with(b"say counted\nsay counted\n")
    );
    Ok(())
}

// Where there is no place for what is printed, or `print` fails, that is told.
#[test]
fn lost_lines_are_told(rt: HostRuntime) {
    let runtime = TestRuntime::of(
        b"a 00000001\nb 00000001\nc 00000001\nd 00000001\ne 00000001\nf 00000001\ng 00000001\n",
    );
    let mut counting = Counting {
        stored: 0,
        prints: 0,
    };
    assert!(rt; run(&(&runtime, rt.alloc()), &mut counting).is_err());
    let runtime = TestRuntime::of(b" 00000001\n");
    assert!(rt; run(&(&runtime, rt.alloc()), &mut counting).is_err());
}
