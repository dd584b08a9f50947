//! Where a board comes from, and how it is read.
ghost use Rattle.std.specs.Prelude.{◌≤◌, IfOk, IfSome};
ghost use Rattle.fc_position.specs.Position.{Fits};

use crate::input::apart::INPUT;
use crate::input::board_lists::{board_behind, read_list};
use crate::input::column_lengths::{
    note_reversed, note_rows, note_short_rows, tell_of_columns, tell_of_rows,
};
use crate::output::endings::{
    Ending, REFUSED, tell_of_board, tell_of_file, tell_of_length, tell_of_reading, tell_of_row_text,
};
use crate::output::token_fronts::{front_of, rest_of};
use arrayvec::ArrayVec;
use fc_deal::{MOST_DEAL, deal};
use fc_io::{FromReader, FromSlice, ReadFault, Source, read_up_to};
use fc_notes::BoardText;
use fc_position::Position;
use fc_row_text::columns_of_row_text;
use fc_runs::{Input, ProgramFault, read_position};
use fc_text::BoardFault;
use fc_typed::{GuessedText, MOST_BYTES, TidyText, Title};
use fc_words::{BoardWord, BoardWords, TextWords, is_number};
use std::fs::{self, File, exists};
use std::io::IsTerminal;

/// Where a board comes from, and how its text is to be read.
#[derive(Drop)]
pub struct BoardSource<'a> {
    place: BoardPlace<'a>,
    text: TextWords,
}

// Where a board comes from.
#[derive(Drop)]
enum BoardPlace<'a> {
    // The numbered deal.
    Deal(u32),
    // A file, and its path.
    File(FromReader<File>, &'a str),
    // One of the boards of a file.
    Listed(Listed<'a>),
    // Standard input.
    Input,
}

impl<'a> BoardSource<'a> {
    /// The number of the deal, if it is one.
    pub fn deal(&self) -> Option<u32> {
        match self.place {
            BoardPlace::Deal(number) => Some(number),
            _ => None,
        }
    }

    /// The path of the file that the board is read from, if it is read from any.
    pub fn path(&self) -> Option<&'a str> {
        match self.place {
            BoardPlace::Deal(_) => None,
            BoardPlace::File(_, path) => Some(path),
            BoardPlace::Listed(listed) => Some(listed.path),
            BoardPlace::Input => Some(INPUT),
        }
    }
}

/// A board of a file that has several, as a table names it: `list.txt:2`.
#[derive(Clone, Copy)]
pub struct Listed<'a> {
    /// The whole name.
    name: &'a str,
    path: &'a str,
    /// Which of the file's boards, from 1 on.
    place: u64,
}

/// The board of a list that a word names: no file has that name, and one has what stands in it before a colon and a number from
/// 1 on.
pub fn listed_board<'a>(rt: &HostRuntime, word: &'a str) -> Option<Listed<'a>> {
    let (path, number) = word.rsplit_once(":")?;
    let place = number.parse::<u64>().ok()?;
    let is_listed = is_number(number)
        && place > 0
        && !exists(rt, word).unwrap_or(false)
        && exists(rt, path).unwrap_or(false);
    is_listed.then_some(Listed {
        name: word,
        path,
        place,
    })
}

/// Where the board comes from that the words name; a file is opened.
pub fn find_board<'a>(rt: &HostRuntime, words: &BoardWords<'a>) -> Result<BoardSource<'a>, Ending> {
    let place = match words.word {
        BoardWord::Deal(number) => BoardPlace::Deal(number),
        BoardWord::Input => BoardPlace::Input,
        BoardWord::Named(word) if is_deal(rt, word) => BoardPlace::Deal(number_of(rt, word)?),
        BoardWord::Named(word) => match listed_board(rt, word) {
            Some(listed) => BoardPlace::Listed(listed),
            None => BoardPlace::File(open(rt, word, Input::Board)?, word),
        },
    };
    Ok(BoardSource {
        place,
        text: words.text,
    })
}

// Whether a word means a numbered deal: it is a number, and no file has that name. (A folder holds no board.)
fn is_deal(rt: &HostRuntime, word: &str) -> bool {
    is_number(word)
        && match fs::metadata(rt, word) {
            Ok(metadata) => metadata.is_dir(),
            Err(_) => true,
        }
}

// The number that a word is.
fn number_of(rt: &HostRuntime, word: &str) -> Result<u32, Ending> {
    match word.parse::<u32>() {
        Ok(number) => Ok(number),
        Err(_) => {
            // (as of a number that is no deal's)
            let _told = eprintln!(rt; "fc_solve: deal number {word} is outside 1 to {MOST_DEAL}");
            Err(Ending::Told(REFUSED))
        }
    }
}

/// The board to start from, for a game with so many cells; what is wrong with it is told, with where it lies.
pub fn read_start(rt: &HostRuntime, source: BoardSource<'_>, cells: u8) -> Result<Position, Ending>
    requires cells { cells ≤ 4 }
    ensures fits { IfOk result (Fits cells) }
{
    let words = source.text;
    let start = match source.place {
        BoardPlace::Deal(number) => {
            return match deal_for(number, cells) {
                Some(start) => Ok(start),
                None => Err(Ending::Fault(ProgramFault::Number(number))),
            };
        }
        BoardPlace::File(file, path) => {
            let typed = read_file(rt, file, path)?;
            read_typed(rt, &typed, words, cells)?
        }
        BoardPlace::Listed(listed) => read_listed(rt, listed, words, cells)?,
        BoardPlace::Input => {
            let typed = read_input(rt)?;
            read_typed(rt, &typed, words, cells)?
        }
    };
    note_reversed(rt, &start);
    Ok(start)
}

// A board of a file that has several.
fn read_listed(
    rt: &HostRuntime,
    listed: Listed<'_>,
    words: TextWords,
    cells: u8,
) -> Result<Position, Ending>
    requires cells { cells ≤ 4 }
    ensures fits { IfOk result (Fits cells) }
{
    let list = read_list(rt, listed.path, Input::Board)?;
    match board_behind(list.as_slice(), listed.place.saturating_sub(1)) {
        Some((text, above)) => read_board_below(rt, text, above, words, cells),
        None => {
            let name = listed.name;
            let _told = eprintln!(rt; "fc_solve: {name}: the file has no such board");
            Err(Ending::Told(REFUSED))
        }
    }
}

/// A numbered deal, for a game with so many cells: none of them holds a card.
#[tactic(auto, using(fc_deal::proofs::DealLemmas::dealt_fits))]
pub fn deal_for(number: u32, cells: u8) -> Option<Position>
    ensures fits { IfSome result (Fits cells) }
{
    deal(number)
}

// A text as it was typed, made tidy, and the title that was left out of it.
#[derive(Drop)]
struct TypedText {
    typed: ArrayVec<u8, MOST_BYTES>,
    tidy: TidyText,
    title: Option<Title>,
    // How many lines of its file stand above it.
    above: u32,
}

impl TypedText {
    // That of all that a source gives; too long a text isn't made tidy.
    fn read<S: Source>(source: &mut S) -> Result<TypedText, ReadFault> {
        let mut room = [0; MOST_BYTES + 1];
        let count = read_up_to(source, &mut room)?;
        let text = &room[..count];
        let tidy = TidyText::of(text).ok_or(ReadFault::TooLong)?;
        let mut typed = ArrayVec::new();
        let _fits = typed.try_extend_from_slice(text);
        Ok(TypedText {
            typed,
            tidy,
            title: Title::of(text),
            above: 0,
        })
    }
}

// The text of a file, made tidy.
fn read_file(rt: &HostRuntime, file: FromReader<File>, path: &str) -> Result<TypedText, Ending> {
    let mut file = file;
    match TypedText::read(&mut file) {
        Ok(text) => Ok(text),
        Err(ReadFault::Failed) => Err(tell_of_reading(rt, Input::Board, path)),
        Err(fault) => Err(unread(rt, fault)),
    }
}

// The text of standard input, made tidy.
fn read_input(rt: &HostRuntime) -> Result<TypedText, Ending> {
    let input = rt.stdin();
    if input.is_terminal() {
        let _told = eprintln!(rt; "fc_solve: reading a board; Ctrl-D ends it");
    }
    match TypedText::read(&mut FromReader::new(input)) {
        Ok(text) => Ok(text),
        Err(fault) => Err(unread(rt, fault)),
    }
}

/// The board of a text, for a game with so many cells, above which so many lines of its file stand; what is wrong with it is told, with
/// where it lies.
pub fn read_board_below(
    rt: &HostRuntime,
    text: &[u8],
    above: u32,
    words: TextWords,
    cells: u8,
) -> Result<Position, Ending>
    requires cells { cells ≤ 4 }
    ensures fits { IfOk result (Fits cells) }
{
    match TypedText::read(&mut FromSlice::new(text)) {
        Ok(typed) => read_typed(rt, &TypedText { above, ..typed }, words, cells),
        Err(fault) => Err(unread(rt, fault)),
    }
}

// The board of a text that was made tidy; what title was left out is told.
fn read_typed(
    rt: &HostRuntime,
    typed: &TypedText,
    words: TextWords,
    cells: u8,
) -> Result<Position, Ending>
    requires cells { cells ≤ 4 }
    ensures fits { IfOk result (Fits cells) }
{
    let text = BoardText {
        tidy: typed.tidy.bytes(),
        typed: typed.typed.as_slice(),
        above: typed.above,
    };
    let read = read_text(rt, &text, words, cells);
    if let Some(title) = &typed.title {
        let title = title.bytes().trim_ascii();
        let (shown, more) = (front_of(title).escape_ascii(), rest_of(title));
        let _told = eprintln!(rt; "fc_solve: left out as a title: '{shown}{more}'");
    }
    read
}

// The board of a text that was made tidy.
fn read_text(
    rt: &HostRuntime,
    text: &BoardText<'_>,
    words: TextWords,
    cells: u8,
) -> Result<Position, Ending>
    requires cells { cells ≤ 4 }
    ensures fits { IfOk result (Fits cells) }
{
    if words.is_in_rows {
        let columns = match columns_of_row_text(text.tidy) {
            Ok(columns) => columns,
            Err(fault) => return Err(tell_of_row_text(rt, fault, text)),
        };
        let made = BoardText {
            tidy: columns.bytes(),
            typed: &[],
            above: 0,
        };
        let start = read_columns(rt, &made, words.is_guessed, cells)?;
        note_short_rows(rt, &start, text);
        tell_of_rows(rt, &start, text.tidy, cells);
        return Ok(start);
    }
    match read_columns(rt, text, words.is_guessed, cells) {
        Ok(start) => {
            tell_of_columns(rt, &start, text.tidy, cells);
            Ok(start)
        }
        Err(ending) => {
            note_rows(rt, text.tidy, cells);
            Err(ending)
        }
    }
}

// The board of a text in columns; where that is asked for, the cards that it lacks are taken for home, if that makes it one.
fn read_columns(
    rt: &HostRuntime,
    text: &BoardText<'_>,
    is_guessed: bool,
    cells: u8,
) -> Result<Position, Ending>
    requires cells { cells ≤ 4 }
    ensures fits { IfOk result (Fits cells) }
{
    let fault = match read_position(&mut FromSlice::new(text.tidy), cells) {
        Ok(start) => return Ok(start),
        Err(fault) => fault,
    };
    if let (true, ProgramFault::Board(BoardFault::MissingCard(_))) = (is_guessed, fault)
        && let Some(guess) = GuessedText::of(text.tidy, cells)
        && let Ok(start) = read_position(&mut FromSlice::new(guess.bytes()), cells)
    {
        let line = guess.line().escape_ascii();
        let _told = eprintln!(rt; "fc_solve: taken for home: {line}");
        return Ok(start);
    }
    Err(tell_of_board(rt, fault, text, cells))
}

// Ends where no text of a board was read; that it is too long is told with what to do.
fn unread(rt: &HostRuntime, fault: ReadFault) -> Ending {
    match fault {
        ReadFault::Failed => Ending::Fault(ProgramFault::Read(Input::Board)),
        ReadFault::TooLong => tell_of_length(rt),
        ReadFault::Memory => Ending::Fault(ProgramFault::Memory),
    }
}

/// The file with this path, to be read as this input.
pub fn open(rt: &HostRuntime, path: &str, input: Input) -> Result<FromReader<File>, Ending> {
    let likely_len = match fs::metadata(rt, path) {
        Ok(metadata) => metadata.len() as usize,
        Err(_) => 0,
    };
    match File::open(rt, path) {
        Ok(file) => Ok(FromReader::with_likely_len(file, likely_len)),
        Err(error) => Err(tell_of_file(rt, ProgramFault::Read(input), path, error)),
    }
}
