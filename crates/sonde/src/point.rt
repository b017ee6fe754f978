// The points of the list before a launch.
use crate::stop::Stop;
use std::{fmt, io};

// A point of the list, by the beginning of its line.
#[derive(Clone, Copy)]
pub(crate) enum Point {
    Flight,
    Polynomial,
    Job,
    Edges,
    Switch,
    Seal,
}

impl fmt::Display for Point {
    fn fmt<W: fmt::Write>(&self, f: &mut fmt::Formatter<W>) -> fmt::Result {
        f.write_str(match self {
            Point::Flight => "0 flight read",
            Point::Polynomial => "1 polynomial",
            Point::Job => "2 header first, then body",
            Point::Edges => "3 edges of the segments",
            Point::Switch => "4 engine switched past 127 blocks",
            Point::Seal => "5 seal read back",
        })
    }
}

// What stops the list.
#[derive(Drop)]
pub(crate) struct Fault {
    pub(crate) point: Point,
    pub(crate) stop: Stop,
}

impl Fault {
    // What is no answer goes to standard error, as with any command; then come the line of the point and the last line, which are the
    // list's. Once it has been told there, a list that cannot be printed is no further fault.
    pub(crate) fn print(&self, rt: &HostRuntime) -> io::Result<()> {
        let Fault { point, stop } = self;
        let told = stop.print_fault(rt);
        let listed = println!(rt; "{point}: {stop}\ndo not launch: {stop}");
        if stop.is_answer() { listed } else { told }
    }
}

impl Point {
    pub(crate) fn of<T: Drop>(self, tried: Result<T, Stop>) -> Result<T, Fault> {
        tried.map_err(|stop| Fault { point: self, stop })
    }
}
