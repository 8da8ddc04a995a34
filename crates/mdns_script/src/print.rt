// Commands as the lines that say them.
ghost use Rattle.std.specs.Prelude.{◌≡◌, ◌++◌, true, decimal, IfOk, OnOk};
ghost use Rattle.dns_record.specs.RecordText.{space};
ghost use Rattle.mdns_history.specs.EntryText.{v6_text};
ghost use Rattle.mdns_script.specs.declared.command.Line.TheVariants as lines;
ghost use Rattle.mdns_script.specs.Lines.{line_of};
ghost use Rattle.mdns_script.specs.CommandText.{command_text, said_host};
ghost use Rattle.mdns_script.specs.Writable.{is_writable, is_one_line};

use crate::Command;
use crate::print_event::put_event;
use bytes::Bytes;
use mdns_history::{Config, HostConfig};
use number_text::{put_decimal, put_ipv4, put_ipv6};
use sd_call::put_label;
use std::alloc::{AllocError, Global};

/// The line of a command, without a line feed: its words with one space between them, spelled as in transcripts, but for TXT
/// data, which are a token for each string. It is read as the command where any line says that one: where its numbers are in
/// their ranges, its texts are UTF-8 and not too long, and its TXT data are whole strings, none of them empty. Of an event that
/// no line says (a boot, a session that is attached, a tick) it is a word that is no line. Refused only for want of memory.
pub fn print_command(alloc: Global, command: &Command) -> Result<Bytes, AllocError>
    ensures printed { IfOk result (λ text. text ≡ command_text command.now) }
    ensures line { IfOk result (λ text. is_writable command.now ≡ true → is_one_line text ≡ true) }
    ensures read { IfOk result (λ text. is_writable command.now ≡ true → line_of text ≡ lines.Command command.now) }
{
    let mut out = Vec::new(alloc);
    put_command(&mut out, command)?;
    Ok(Bytes::from_vec(out)?)
}

fn put_command(out: &mut Vec<u8>, command: &Command) -> Result<(), AllocError>
    ensures { OnOk result (out.new.items ≡ out.old.items ++ command_text command.now) }
{
    match command {
        Command::Pass => Ok(()),
        Command::Daemon { number, config } => put_daemon(out, *number, config),
        Command::At { moment } => put_numbered(out, b"at ", *moment),
        Command::Word { word } => put_numbered(out, b"word ", u64::from(*word)),
        Command::Seed { seed } => put_numbered(out, b"seed ", u64::from(*seed)),
        Command::Delay { ms } => put_numbered(out, b"delay ", *ms),
        Command::Lose { count } => put_numbered(out, b"lose ", *count),
        Command::Part { left, right } => put_two(out, b"part ", *left, *right),
        Command::Meet { left, right } => put_two(out, b"meet ", *left, *right),
        Command::Attach { daemon } => put_numbered(out, b"open ", u64::from(*daemon)),
        Command::Event { daemon, event } => put_event(out, *daemon, event),
    }
}

/// Puts a word and a number behind it. Refused only for want of memory.
pub(crate) fn put_numbered(out: &mut Vec<u8>, word: &[u8], number: u64) -> Result<(), AllocError>
    ensures { OnOk result (out.new.items ≡ out.old.items ++ (word.now ++ decimal number)) }
{
    out.extend_from_slice(word)?;
    put_decimal(out, number)?;
    Ok(())
}

/// Puts a word. Refused only for want of memory.
pub(crate) fn put_word(out: &mut Vec<u8>, word: &[u8]) -> Result<(), AllocError>
    ensures { OnOk result (out.new.items ≡ out.old.items ++ word.now) }
{
    out.extend_from_slice(word)?;
    Ok(())
}

// A word and two daemons behind it.
fn put_two(out: &mut Vec<u8>, word: &[u8], left: u32, right: u32) -> Result<(), AllocError>
    ensures { OnOk result (out.new.items ≡ out.old.items ++ (word.now ++ decimal left ++ space ++ decimal right)) }
{
    put_numbered(out, word, u64::from(left))?;
    put_numbered(out, b" ", u64::from(right))?;
    Ok(())
}

fn put_daemon(out: &mut Vec<u8>, number: u32, config: &Config) -> Result<(), AllocError>
    ensures { OnOk result (out.new.items ≡ out.old.items ++ command_text (Command.Daemon number config.now)) }
{
    put_numbered(out, b"daemon ", u64::from(number))?;
    put_host(out, config.address, &config.host)?;
    Ok(())
}

fn put_host(out: &mut Vec<u8>, address: u32, host: &Option<HostConfig>) -> Result<(), AllocError>
    ensures { OnOk result (out.new.items ≡ out.old.items ++ said_host address host.now) }
{
    match host {
        None => Ok(()),
        Some(host) => {
            out.extend_from_slice(b" host ")?;
            put_label(out, host.label.as_slice())?;
            out.push(b' ')?;
            put_ipv4(out, address)?;
            put_v6(out, host.v6)?;
            Ok(())
        }
    }
}

fn put_v6(out: &mut Vec<u8>, v6: Option<u128>) -> Result<(), AllocError>
    ensures { OnOk result (out.new.items ≡ out.old.items ++ v6_text v6) }
{
    match v6 {
        None => Ok(()),
        Some(v6) => {
            out.push(b' ')?;
            put_ipv6(out, v6)?;
            Ok(())
        }
    }
}
