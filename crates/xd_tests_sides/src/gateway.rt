// Gateways over a sink in memory.

mod rows;

use std::alloc::{AllocError, Global};
use std::test::Fail;
use xd_edge::{Indices, Text};
use xd_factory::Parity;
use xd_frame::Framer;
use xd_gateway::Gateway;
use xd_journal::{Outcome, What};
use xd_memory::MemSink;
use xd_value::Value;

fn gateway(alloc: Global) -> Result<Gateway<MemSink>, Fail> {
    let never = Indices {
        items: Vec::new(alloc),
    };
    let sink = MemSink::new(alloc, 1000, never)?;
    Ok(Gateway::new(alloc, Parity::Odd, sink))
}

// Calls `run_tests` with the suite `s.toml` in mode load.
fn run_tests(alloc: Global, gateway: &mut Gateway<MemSink>) -> Result<u32, Fail> {
    let name = Text::of(alloc, "run_tests")?;
    let suite = (
        Text::of(alloc, "suite")?,
        Value::Text(Text::of(alloc, "s.toml")?),
    );
    let dist = (
        Text::of(alloc, "dist")?,
        Value::Text(Text::of(alloc, "load")?),
    );
    let kwargs = vec![in alloc; suite, dist]?;
    let number = gateway.remote_exec(&name, kwargs)?;
    Ok(number)
}

fn write_numbers(out: &mut String, numbers: &[u32]) -> Result<(), AllocError> {
    for (place, number) in numbers.iter().enumerate() {
        if 0 < place {
            out.push_str(", ")?;
        }
        write!(out, "{number}")?;
    }
    Ok(())
}

fn write_texts(out: &mut String, texts: &[Text]) -> Result<(), AllocError> {
    for (place, text) in texts.iter().enumerate() {
        if 0 < place {
            out.push_str(", ")?;
        }
        out.push_str(text.as_str())?;
    }
    Ok(())
}

fn write_bytes(out: &mut String, bytes: &[u8]) -> Result<(), AllocError> {
    for byte in bytes {
        write!(out, "{byte:02x}")?;
    }
    Ok(())
}

fn write_outcome(out: &mut String, outcome: Outcome) -> Result<(), AllocError> {
    match outcome {
        Outcome::Passed => out.push_str("passed"),
        Outcome::Skipped => out.push_str("skipped"),
        Outcome::Failed(code) => write!(out, "failed {code}"),
    }
}

// The news in words.
fn write_news(out: &mut String, news: &What) -> Result<(), AllocError> {
    match news {
        What::Ready => out.push_str("Ready"),
        What::Collected(ids) => {
            out.push_str("Collected [")?;
            write_texts(out, &ids.items)?;
            out.push_str("]")
        }
        What::LogStart { index, log } => write!(out, "LogStart {index} {log}"),
        What::Piece { log, bytes } => {
            write!(out, "Piece {log} ")?;
            write_bytes(out, bytes.as_slice())
        }
        What::LogClosed { log } => write!(out, "LogClosed {log}"),
        What::Done { index, outcome, ms } => {
            write!(out, "Done {index} ")?;
            write_outcome(out, *outcome)?;
            write!(out, " {ms}")
        }
        What::Back(indices) => {
            out.push_str("Back [")?;
            write_numbers(out, &indices.items)?;
            out.push_str("]")
        }
        What::Finished => out.push_str("Finished"),
        What::Closed(None) => out.push_str("Closed"),
        What::Closed(Some(text)) => {
            let text = text.as_str();
            write!(out, "Closed '{text}'")
        }
        What::Stray => out.push_str("Stray"),
        What::Gone(_) | What::NotStarted => out.push_str("?"),
    }
}

// The news of the messages that these bytes are, in words. The bytes come one by one.
fn news_of(alloc: Global, bytes: &[u8]) -> Result<String, Fail> {
    let mut gateway = gateway(alloc)?;
    let _ = run_tests(alloc, &mut gateway)?;
    let mut framer = Framer::new(alloc);
    for byte in bytes {
        framer.feed(&[*byte])?;
    }
    let mut out = String::new(alloc);
    for _ in 0..100 {
        let Some(message) = framer.next() else {
            break;
        };
        match gateway.hear(message)? {
            Some(news) => write_news(&mut out, &news)?,
            None => out.push_str("-")?,
        }
        out.push_str(";")?;
    }
    Ok(out)
}

// A hexadecimal digit.
fn digit(c: u8) -> Result<u8, Fail> {
    match c {
        b'0'..=b'9' => Ok(c.wrapping_sub(b'0')),
        b'a'..=b'f' => Ok(c.wrapping_sub(b'a').wrapping_add(10)),
        _ => Err(Fail::from("a hexadecimal digit")),
    }
}

// The bytes of messages that stand in hexadecimal digits.
fn bytes_of(alloc: Global, words: &str) -> Result<Vec<u8>, Fail> {
    let mut bytes = Vec::new(alloc);
    let mut high: Option<u8> = None;
    for c in words.bytes() {
        if c != b' ' {
            let low = digit(c)?;
            if let Some(first) = high {
                bytes.push(first.wrapping_mul(16).wrapping_add(low))?;
                high = None;
            } else {
                high = Some(low);
            }
        }
    }
    Ok(bytes)
}

#[test]
fn messages_mean_the_news_that_another_reading_gives(rt: HostRuntime) -> Result<(), Fail> {
    let alloc = rt.alloc();
    for line in rows::ROWS.lines() {
        let (words, news) = line.split_once(" ~ ").ok_or("a list and its news")?;
        let bytes = bytes_of(alloc, words)?;
        let heard = news_of(alloc, bytes.as_slice())?;
        assert_eq!(rt; heard.as_str(), news);
    }
    Ok(())
}
