// News and entries in words.
//
// News: R ready; C collected, with : and the ids parted by |, or # and how many tests `t0`, `t1`, ..; L a log starts, with
// its test and number; P output, with its log; E the end of a log; D done, with test, outcome (p passed, s skipped, or how
// it failed) and milliseconds; T all of a test, with test, outcome, milliseconds and output; B back, with tests; F finished;
// X closed, with : and its error; Z what no worker may send; G gone, with the first letter of the cause; N not started.
// An id %1f, %20 or %7f is that character. Output x*9 is nine times x, and / in it is a newline.
//
// Entries: what was said in capitals as above, with the kept output last, and = for the same ids; then s start, with its
// slot; r run, with tests; a run all; t steal, with tests; h shutdown; k kill; o the end. What is shown has more than
// eight of one character as x*9, and / for a newline.
use std::alloc::Global;
use std::collections::VecDeque;
use std::test::Fail;
use xd_edge::{Blob, Indices, Text, Texts};
use xd_journal::{Cause, Entry, Ids, News, Outcome, RunStop, What};

pub fn number(words: &str) -> Result<u32, Fail> {
    Ok(words.parse::<u32>().ok().ok_or("a number")?)
}

fn numbers(alloc: Global, words: &str) -> Result<Indices, Fail> {
    let mut items = Vec::new(alloc);
    for word in words.split(',') {
        if !word.is_empty() {
            items.push(number(word)?)?;
        }
    }
    Ok(Indices { items })
}

fn at(numbers: &Indices, place: usize) -> Result<u32, Fail> {
    Ok(numbers.items.get(place).copied().ok_or("one more number")?)
}

fn id(words: &str) -> &str {
    match words {
        "%1f" => "\u{1f}",
        "%20" => " ",
        "%7f" => "\u{7f}",
        other => other,
    }
}

fn numbered_ids(alloc: Global, count: u32) -> Result<Texts, Fail> {
    let mut items = Vec::new(alloc);
    for test in 0..count {
        items.push(Text::from_string(format!(in alloc; "t{test}")?))?;
    }
    Ok(Texts { items })
}

fn ids(alloc: Global, words: &str) -> Result<Texts, Fail> {
    let mut items = Vec::new(alloc);
    if !words.is_empty() {
        for word in words.split('|') {
            items.push(Text::of(alloc, id(word))?)?;
        }
    }
    Ok(Texts { items })
}

fn collected(alloc: Global, words: &str) -> Result<News, Fail> {
    if let Some((worker, count)) = words.split_once('#') {
        return Ok(News {
            worker: number(worker)?,
            what: What::Collected(numbered_ids(alloc, number(count)?)?),
        });
    }
    let (worker, own) = words.split_once(':').ok_or("a collection")?;
    Ok(News {
        worker: number(worker)?,
        what: What::Collected(ids(alloc, own)?),
    })
}

fn outcome(words: &str) -> Result<Outcome, Fail> {
    match words {
        "p" => Ok(Outcome::Passed),
        "s" => Ok(Outcome::Skipped),
        code => Ok(Outcome::Failed(code.parse::<i32>().ok().ok_or("an outcome")?)),
    }
}

fn cause(words: &str) -> Result<Cause, Fail> {
    match words {
        "e" => Ok(Cause::Ended),
        "c" => Ok(Cause::Cut),
        "g" => Ok(Cause::Garbled),
        "r" => Ok(Cause::ReadFault),
        "s" => Ok(Cause::SendFault),
        _ => Err(Fail::from("a cause")),
    }
}

fn output(alloc: Global, words: &str) -> Result<Blob, Fail> {
    let (word, times) = match words.split_once('*') {
        Some((word, times)) => (word, number(times)?),
        None => (words, 1),
    };
    let mut bytes = Vec::new(alloc);
    for _ in 0..times {
        for byte in word.bytes() {
            bytes.push(if byte == b'/' { b'\n' } else { byte })?;
        }
    }
    Ok(Blob::from_vec(bytes))
}

// A test's outcome and milliseconds, by its worker and number.
fn done(index: u32, how: &str, ms: &str) -> Result<What, Fail> {
    Ok(What::Done {
        index,
        outcome: outcome(how)?,
        ms: u64::from(number(ms)?),
    })
}

fn result(words: &str) -> Result<News, Fail> {
    let mut words = words.split(',');
    let worker = number(words.next().ok_or("a worker")?)?;
    let index = number(words.next().ok_or("a test")?)?;
    let outcome = words.next().ok_or("an outcome")?;
    let ms = words.next().ok_or("a duration")?;
    let what = done(index, outcome, ms)?;
    Ok(News { worker, what })
}

fn say(worker: u32, what: What, news: &mut VecDeque<News>) -> Result<(), Fail> {
    news.push_back(News { worker, what })?;
    Ok(())
}

// All of a test: its log, whose number is above all earlier ones, its output and its result.
fn test(alloc: Global, words: &str, news: &mut VecDeque<News>) -> Result<(), Fail> {
    let mut words = words.split(',');
    let worker = number(words.next().ok_or("a worker")?)?;
    let index = number(words.next().ok_or("a test")?)?;
    let outcome = words.next().ok_or("an outcome")?;
    let ms = words.next().ok_or("a duration")?;
    let before = u32::try_from(news.len()).ok().ok_or("fewer news")?;
    let log = before.wrapping_mul(2).wrapping_add(2);
    say(worker, What::LogStart { index, log }, news)?;
    if let Some(words) = words.next() {
        let bytes = output(alloc, words)?;
        say(worker, What::Piece { log, bytes }, news)?;
    }
    say(worker, What::LogClosed { log }, news)?;
    say(worker, done(index, outcome, ms)?, news)?;
    Ok(())
}

fn log_start(alloc: Global, words: &str) -> Result<News, Fail> {
    let all = numbers(alloc, words)?;
    Ok(News {
        worker: at(&all, 0)?,
        what: What::LogStart {
            index: at(&all, 1)?,
            log: at(&all, 2)?,
        },
    })
}

fn piece(alloc: Global, words: &str) -> Result<News, Fail> {
    let (worker, rest) = words.split_once(',').ok_or("a log")?;
    let (log, words) = rest.split_once(',').ok_or("output")?;
    Ok(News {
        worker: number(worker)?,
        what: What::Piece {
            log: number(log)?,
            bytes: output(alloc, words)?,
        },
    })
}

fn log_end(alloc: Global, words: &str) -> Result<News, Fail> {
    let all = numbers(alloc, words)?;
    Ok(News {
        worker: at(&all, 0)?,
        what: What::LogClosed { log: at(&all, 1)? },
    })
}

fn back(alloc: Global, words: &str) -> Result<News, Fail> {
    let (worker, tests) = words.split_once(',').unwrap_or((words, ""));
    Ok(News {
        worker: number(worker)?,
        what: What::Back(numbers(alloc, tests)?),
    })
}

fn closed(alloc: Global, words: &str) -> Result<News, Fail> {
    let Some((worker, text)) = words.split_once(':') else {
        return Ok(News {
            worker: number(words)?,
            what: What::Closed(None),
        });
    };
    Ok(News {
        worker: number(worker)?,
        what: What::Closed(Some(Text::of(alloc, text)?)),
    })
}

fn gone(words: &str) -> Result<News, Fail> {
    let (worker, letter) = words.split_once(',').ok_or("a cause")?;
    Ok(News {
        worker: number(worker)?,
        what: What::Gone(cause(letter)?),
    })
}

fn plain(words: &str, what: What) -> Result<News, Fail> {
    Ok(News {
        worker: number(words)?,
        what,
    })
}

// One word of news, but for all of a test.
fn one(alloc: Global, kind: char, words: &str) -> Result<News, Fail> {
    match kind {
        'R' => plain(words, What::Ready),
        'C' => collected(alloc, words),
        'L' => log_start(alloc, words),
        'P' => piece(alloc, words),
        'E' => log_end(alloc, words),
        'D' => result(words),
        'B' => back(alloc, words),
        'F' => plain(words, What::Finished),
        'X' => closed(alloc, words),
        'Z' => plain(words, What::Stray),
        'G' => gone(words),
        'N' => plain(words, What::NotStarted),
        _ => Err(Fail::from("news")),
    }
}

/// The news of words with spaces between them.
pub fn news_of(alloc: Global, words: &str) -> Result<VecDeque<News>, Fail> {
    let mut news = VecDeque::new(alloc);
    for word in words.split(' ') {
        let kind = word.chars().next().ok_or("news")?;
        let rest = word.get(1..).ok_or("news")?;
        if kind == 'T' {
            test(alloc, rest, &mut news)?;
        } else {
            news.push_back(one(alloc, kind, rest)?)?;
        }
    }
    Ok(news)
}

fn show_numbers(text: &mut String, numbers: &[u32]) -> Result<(), Fail> {
    for (i, number) in numbers.iter().enumerate() {
        let follows = i > 0 && numbers[i - 1].checked_add(1) == Some(*number);
        let goes_on = match numbers.get(i + 1) {
            Some(next) => number.checked_add(1) == Some(*next),
            None => false,
        };
        match (follows, goes_on) {
            (false, false) => write!(text, ",{number}")?,
            (false, true) => write!(text, ",{number}-")?,
            (true, false) => write!(text, "{number}")?,
            (true, true) => {}
        }
    }
    Ok(())
}

fn show_byte(text: &mut String, byte: u8, times: usize) -> Result<(), Fail> {
    let shown = if byte == b'\n' { '/' } else { char::from(byte) };
    if times > 8 {
        write!(text, "{shown}*{times}")?;
        return Ok(());
    }
    for _ in 0..times {
        text.push(shown)?;
    }
    Ok(())
}

pub fn show_bytes(text: &mut String, bytes: &[u8]) -> Result<(), Fail> {
    let mut times = 0_usize;
    for (i, byte) in bytes.iter().enumerate() {
        times = times.saturating_add(1);
        if bytes.get(i + 1) != Some(byte) {
            show_byte(text, *byte, times)?;
            times = 0;
        }
    }
    Ok(())
}

fn show_output(text: &mut String, output: &Blob) -> Result<(), Fail> {
    if !output.bytes.is_empty() {
        text.push(',')?;
        show_bytes(text, output.as_slice())?;
    }
    Ok(())
}

// The ids are `t0`, `t1`, .., at least three of them.
fn are_numbered(alloc: Global, ids: &Texts) -> Result<bool, Fail> {
    for (i, id) in ids.items.iter().enumerate() {
        if id.as_str() != format!(in alloc; "t{i}")?.as_str() {
            return Ok(false);
        }
    }
    Ok(ids.items.len() > 2)
}

fn show_list(alloc: Global, text: &mut String, ids: &Texts) -> Result<(), Fail> {
    if are_numbered(alloc, ids)? {
        write!(text, "#{}", ids.items.len())?;
        return Ok(());
    }
    text.push(':')?;
    for (i, id) in ids.items.iter().enumerate() {
        if i > 0 {
            text.push('|')?;
        }
        text.push_str(id.as_str())?;
    }
    Ok(())
}

fn show_ids(alloc: Global, text: &mut String, ids: &Ids) -> Result<(), Fail> {
    match ids {
        Ids::Same => text.push('=')?,
        Ids::List(list) => show_list(alloc, text, list)?,
    }
    Ok(())
}

fn show_outcome(text: &mut String, outcome: &Outcome) -> Result<(), Fail> {
    match outcome {
        Outcome::Passed => text.push('p')?,
        Outcome::Skipped => text.push('s')?,
        Outcome::Failed(code) => write!(text, "{code}")?,
    }
    Ok(())
}

fn letter(cause: &Cause) -> char {
    match cause {
        Cause::Ended => 'e',
        Cause::Cut => 'c',
        Cause::Garbled => 'g',
        Cause::ReadFault => 'r',
        Cause::SendFault => 's',
        Cause::Breach => 'b',
    }
}

fn show_stop(text: &mut String, how: &RunStop) -> Result<(), Fail> {
    match how {
        RunStop::Completed => write!(text, "o:completed")?,
        RunStop::MaxFail { count } => write!(text, "o:maxfail,{count}")?,
        RunStop::Restarts { worker, limit } => write!(text, "o:restarts,{worker},{limit}")?,
        RunStop::Unequal {
            worker,
            other,
            place,
        } => write!(text, "o:unequal,{worker},{other},{place}")?,
        RunStop::CollectError { worker } => write!(text, "o:collect,{worker}")?,
        RunStop::OutFault => write!(text, "o:out")?,
    }
    Ok(())
}

fn show_input(alloc: Global, text: &mut String, entry: &Entry) -> Result<(), Fail> {
    match entry {
        Entry::Ready { worker } => write!(text, "R{worker}")?,
        Entry::Collected { worker, ids } => {
            write!(text, "C{worker}")?;
            show_ids(alloc, text, ids)?;
        }
        Entry::Done {
            worker,
            index,
            outcome,
            ms,
            output,
        } => {
            write!(text, "D{worker},{index},")?;
            show_outcome(text, outcome)?;
            write!(text, ",{ms}")?;
            show_output(text, output)?;
        }
        Entry::Down {
            worker,
            cause,
            output,
        } => {
            let letter = letter(cause);
            write!(text, "G{worker},{letter}")?;
            show_output(text, output)?;
        }
        Entry::Back { worker, indices } => {
            write!(text, "B{worker}")?;
            show_numbers(text, &indices.items)?;
        }
        Entry::Finished { worker } => write!(text, "F{worker}")?,
        Entry::Refused {
            worker,
            text: error,
        } => {
            write!(text, "X{worker}:")?;
            text.push_str(error.as_str())?;
        }
        Entry::NotStarted { worker } => write!(text, "N{worker}")?,
        _ => show_told(text, entry)?,
    }
    Ok(())
}

fn show_told(text: &mut String, entry: &Entry) -> Result<(), Fail> {
    match entry {
        Entry::Start { worker, slot } => write!(text, "s{worker},{slot}")?,
        Entry::Run { worker, indices } => {
            write!(text, "r{worker}")?;
            show_numbers(text, &indices.items)?;
        }
        Entry::RunAll { worker } => write!(text, "a{worker}")?,
        Entry::Steal { worker, indices } => {
            write!(text, "t{worker}")?;
            show_numbers(text, &indices.items)?;
        }
        Entry::Shutdown { worker } => write!(text, "h{worker}")?,
        Entry::Kill { worker } => write!(text, "k{worker}")?,
        Entry::Over { how } => show_stop(text, how)?,
        _ => return Err(Fail::from("an output")),
    }
    Ok(())
}

/// Each entry, and a space after it.
pub fn show_entries(alloc: Global, text: &mut String, entries: &[Entry]) -> Result<(), Fail> {
    for entry in entries {
        show_input(alloc, text, entry)?;
        text.push(' ')?;
    }
    Ok(())
}
