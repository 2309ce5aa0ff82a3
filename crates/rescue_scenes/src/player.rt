//! The lines of a transcript, and what is written below them.
use crate::scene::Scene;
use scene_text::command::{Command, read_command};
use scene_text::refusal::Refusal;
use std::alloc::Global;
use std::io::{self, Write};

/// How many bytes are written at once, at least.
const PIECE: usize = 1 << 16;

/// Plays a transcript, and writes it with its results. Answers whether each of its lines was understood.
pub(crate) fn play<W: Write>(alloc: Global, transcript: &[u8], to: &mut W) -> io::Result<bool> {
    let mut player = Player::new(alloc);
    for line in transcript.split_inclusive(|byte| *byte == b'\n') {
        player.play_line(line.strip_suffix(b"\n").unwrap_or(line))?;
        if player.out.len() >= PIECE {
            to.write_all(&player.out)?;
            player.out.clear();
        }
    }
    to.write_all(&player.out)?;
    to.flush()?;
    Ok(player.understood)
}

/// A text file, as far as its lines were read.
#[derive(Drop)]
struct TextFile {
    name: String,
    bytes: Vec<u8>,
}

/// The scene that is played.
#[derive(Drop)]
struct Player {
    alloc: Global,
    scene: Scene,
    /// The file to which lines may be added.
    text: Option<TextFile>,
    /// What is to be written.
    out: Vec<u8>,
    /// Whether each line so far was understood.
    understood: bool,
}

impl Player {
    fn new(alloc: Global) -> Player {
        Player {
            alloc,
            scene: Scene::new(alloc),
            text: None,
            out: Vec::new(alloc),
            understood: true,
        }
    }

    /// Plays a line, and adds it with its results. A result is left out.
    fn play_line(&mut self, line: &[u8]) -> io::Result<()> {
        if line.starts_with(b"  ") {
            return Ok(());
        }
        self.out.extend_from_slice(line)?;
        self.out.push(b'\n')?;
        if line.is_empty() || line.starts_with(b"#") {
            return Ok(());
        }
        match self.obey(line) {
            Ok(()) => Ok(()),
            Err(Refusal::NotUnderstood) => {
                self.understood = false;
                self.out.extend_from_slice(b"  not understood\n")?;
                Ok(())
            }
            Err(Refusal::NoMemory) => Err(io::Error::from(io::ErrorKind::OutOfMemory)),
        }
    }

    fn obey(&mut self, line: &[u8]) -> Result<(), Refusal> {
        if let Some(added) = added_line(line) {
            return self.add_line(added);
        }
        self.end_text()?;
        let command = read_command(self.alloc, line)?;
        self.carry_out(command)
    }

    /// Adds a line to the text above it.
    fn add_line(&mut self, line: &[u8]) -> Result<(), Refusal> {
        let Some(text) = &mut self.text else {
            return Err(Refusal::NotUnderstood);
        };
        self.scene.count_bytes(line.len().saturating_add(1))?;
        text.bytes.extend_from_slice(line)?;
        text.bytes.push(b'\n')?;
        Ok(())
    }

    /// Puts the text there whose lines were read.
    fn end_text(&mut self) -> Result<(), Refusal> {
        match self.text.take() {
            None => Ok(()),
            Some(TextFile { name, bytes }) => self.scene.place_file(name.as_str(), &bytes, true),
        }
    }

    fn carry_out(&mut self, command: Command) -> Result<(), Refusal> {
        match command {
            Command::Scene => {
                self.scene = Scene::new(self.alloc);
                Ok(())
            }
            Command::Source(bytes) => self.scene.set_source(bytes),
            Command::End(at) => self.scene.set_end(at),
            Command::Bad(range) => self.scene.add_bad(range),
            Command::Room(room) => self.scene.set_room(room),
            Command::File {
                name,
                bytes,
                regular,
            } => self.scene.put_file(name.as_str(), &bytes, regular),
            Command::Text(name) => self.begin_text(name),
            Command::Clock(readings) => {
                self.scene.set_clock(readings, false);
                Ok(())
            }
            Command::Paced(readings) => {
                self.scene.set_clock(readings, true);
                Ok(())
            }
            Command::Feed(bytes) => self.scene.set_feed(bytes),
            Command::Fail(object, numbers) => self.scene.fail_calls(object, &numbers),
            Command::FailSite(failing) => self.scene.fail_site_calls(&failing),
            Command::Run(words) => self.scene.run(&words, &mut self.out),
            Command::Log(words) => self.scene.log(&words, &mut self.out),
            Command::Part(words) => self.scene.part(&words, &mut self.out),
            Command::Verify(words) => self.scene.verify(&words, &mut self.out),
            Command::Plan(words) => self.scene.plan(&words, &mut self.out),
            Command::Picture(words) => self.scene.draw(&words, &mut self.out),
            Command::Stop { calls, kind } => self.scene.stop(calls, kind),
            Command::Stops(stops) => self.scene.stops(&stops, &mut self.out),
            Command::Left(names) => self.scene.left(&names, &mut self.out),
            Command::View(view, names) => self.scene.view(view, &names, &mut self.out),
        }
    }

    /// Puts an empty file there, whose lines follow.
    fn begin_text(&mut self, name: String) -> Result<(), Refusal> {
        self.scene.put_file(name.as_str(), b"", true)?;
        self.text = Some(TextFile {
            name,
            bytes: Vec::new(self.alloc),
        });
        Ok(())
    }
}

/// What a line adds to a text, if it is such a line.
fn added_line(line: &[u8]) -> Option<&[u8]> {
    if line == b"|".as_slice() {
        return Some(b"");
    }
    line.strip_prefix(b"| ")
}
