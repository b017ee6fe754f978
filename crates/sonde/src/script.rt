// Scripts of a job: a call to a line.
use crate::stop::{BadWord, Stop};
use crate::words::bytes_of;
use job::Call;
use std::alloc::AllocError;
use std::{fs, io};
use thiserror::Error;

// What is wrong with a line of a script.
#[derive(Debug, Drop, Error)]
pub(crate) enum LineFault {
    #[error("no such call")]
    NoSuchCall,
    #[error("this call takes no words")]
    WordTooMany,
    #[error("piece: {0}")]
    BadHex(#[from] BadWord),
    #[error("file: {0}")]
    NoFile(#[from] io::Error),
    #[error("header after the turn")]
    HeaderAfterTurn,
    #[error("body before the turn")]
    BodyBeforeTurn,
    #[error("a second turn")]
    SecondTurn,
    #[error("close before the turn")]
    CloseBeforeTurn,
    #[error("a call after the close")]
    AfterClose,
    #[error("the script ends before the close")]
    NoClose,
    #[error("no memory")]
    NoMemory(#[from(alloc)] AllocError),
}

// What is asked of the job: that it takes a piece, or that the engines switch.
#[derive(Drop)]
pub(crate) enum Asked {
    Feed(Vec<u8>),
    Switch,
}

// What a line asks of the job.
#[derive(Drop)]
pub(crate) struct Step {
    pub(crate) line: usize,
    pub(crate) asked: Asked,
}

impl Step {
    fn new(line: usize, asked: Asked) -> Step {
        Step { line, asked }
    }

    pub(crate) fn call(&self) -> Call<'_> {
        match &self.asked {
            Asked::Feed(piece) => Call::Feed(piece),
            Asked::Switch => Call::Switch,
        }
    }

    // How many bytes it feeds.
    pub(crate) fn bytes(&self) -> u64 {
        match &self.asked {
            Asked::Feed(piece) => piece.len() as u64,
            Asked::Switch => 0,
        }
    }
}

// A line of a script.
#[derive(Drop)]
enum Line {
    Header(Vec<u8>),
    Switch,
    Turn,
    Body(Vec<u8>),
    Close,
}

// Hexadecimal digits, or `@` and the name of a file.
fn piece_of_word(rt: &HostRuntime, word: &str) -> Result<Vec<u8>, LineFault> {
    match word.strip_prefix('@') {
        Some(name) => Ok(fs::read(rt, name)?),
        None => Ok(bytes_of(rt, word)?),
    }
}

// The bytes of the words that follow a feed's name, joined.
fn piece_words(rt: &HostRuntime, words: &str) -> Result<Vec<u8>, LineFault> {
    let mut piece = Vec::new(rt.alloc());
    for word in words.split_whitespace() {
        piece.extend_from_slice(&piece_of_word(rt, word)?)?;
    }
    Ok(piece)
}

impl Line {
    fn named(rt: &HostRuntime, name: &str, words: &str) -> Result<Line, LineFault> {
        match name {
            "header" => Ok(Line::Header(piece_words(rt, words)?)),
            "body" => Ok(Line::Body(piece_words(rt, words)?)),
            "switch" | "turn" | "close" if !words.is_empty() => Err(LineFault::WordTooMany),
            "switch" => Ok(Line::Switch),
            "turn" => Ok(Line::Turn),
            "close" => Ok(Line::Close),
            _ => Err(LineFault::NoSuchCall),
        }
    }

    // Empty lines and those that begin with `#` are none.
    fn parse(rt: &HostRuntime, text: &str) -> Result<Option<Line>, LineFault> {
        let text = text.trim_ascii();
        if text.is_empty() || text.starts_with('#') {
            return Ok(None);
        }
        let (name, words) = text.split_once(' ').unwrap_or((text, ""));
        Ok(Some(Line::named(rt, name, words)?))
    }
}

// How far the lines have come, past the turn with its line.
#[derive(Clone, Copy)]
enum Stage {
    Header,
    Body { turn: usize },
    Closed { turn: usize },
}

// The steps of the lines so far.
#[derive(Drop)]
struct Reading {
    header: Vec<Step>,
    body: Vec<Step>,
    stage: Stage,
}

impl Reading {
    // What the line asks, where it may stand there.
    fn take(&mut self, number: usize, line: Line) -> Result<(), LineFault> {
        match (self.stage, line) {
            (Stage::Header, Line::Header(piece)) => self
                .header
                .push(Step::new(number, Asked::Feed(piece)))?,
            (Stage::Header, Line::Switch) => self.header.push(Step::new(number, Asked::Switch))?,
            (Stage::Header, Line::Turn) => self.stage = Stage::Body { turn: number },
            (Stage::Header, Line::Body(_)) => return Err(LineFault::BodyBeforeTurn),
            (Stage::Header, Line::Close) => return Err(LineFault::CloseBeforeTurn),
            (Stage::Body { .. }, Line::Header(_)) => return Err(LineFault::HeaderAfterTurn),
            (Stage::Body { .. }, Line::Switch) => self.body.push(Step::new(number, Asked::Switch))?,
            (Stage::Body { .. }, Line::Turn) => return Err(LineFault::SecondTurn),
            (Stage::Body { .. }, Line::Body(piece)) => self
                .body
                .push(Step::new(number, Asked::Feed(piece)))?,
            (Stage::Body { turn }, Line::Close) => self.stage = Stage::Closed { turn },
            (Stage::Closed { .. }, _) => return Err(LineFault::AfterClose),
        }
        Ok(())
    }

    fn take_text(&mut self, rt: &HostRuntime, number: usize, text: &str) -> Result<(), LineFault> {
        match Line::parse(rt, text)? {
            Some(line) => self.take(number, line),
            None => Ok(()),
        }
    }

    // Every line, or the first that is wrong. Lines are counted from 1.
    fn take_lines(&mut self, rt: &HostRuntime, text: &str) -> Result<(), Stop> {
        for (line, text) in (1usize..).zip(text.lines()) {
            self.take_text(rt, line, text)
                .map_err(|fault| Stop::BadLine { line, fault })?;
        }
        Ok(())
    }
}

// A script that is whole.
#[derive(Drop)]
pub(crate) struct Script {
    pub(crate) header: Vec<Step>,
    // The turn's line.
    pub(crate) turn: usize,
    pub(crate) body: Vec<Step>,
}

impl Script {
    // The whole script, or the first line that is wrong; nothing is run yet.
    pub(crate) fn read(rt: &HostRuntime, text: &str) -> Result<Script, Stop> {
        let mut reading = Reading {
            header: Vec::new(rt.alloc()),
            body: Vec::new(rt.alloc()),
            stage: Stage::Header,
        };
        reading.take_lines(rt, text)?;
        let Reading {
            header,
            body,
            stage,
        } = reading;
        let Stage::Closed { turn } = stage else {
            return Err(Stop::BadLine {
                line: text.lines().count(),
                fault: LineFault::NoClose,
            });
        };
        Ok(Script { header, turn, body })
    }
}
