//! The words that the program is called with: a form's name, and behind it the names of its files and its options, as
//! `specs/Words` has them.

ghost use Rattle.std.specs.Prelude.{◌≡◌, map, string_bytes, option_map};
ghost use Rattle.program_words.specs.Words.{market_of, script_of, serve_of, check_of, solve_of, gen_of, replay_of, roll_of, standby_of, follow_of, form_named, form_of, read_market, read_form};
ghost use Rattle.program_words.specs.Parting.{read_options, read_parts};

use crate::forms::{
    CheckWords, Form, MarketFiles, ReplayWords, RollWords, ScriptWords, ServiceWords, StandbyWords,
};
use crate::options::{Options, count_of};
use crate::parting::{Parts, parts_of};
use command_types::Mode;
use units_core::{MOST_NUMBER, Name};

// The market of these words; none where the mode is none.
fn read_market<'a>(roster: &'a str, trades: &'a str, mode: &str) -> Option<MarketFiles<'a>>
    ensures { option_map read_market result ≡ market_of roster.now trades.now mode.now }
{
    let mode = Mode::read(mode.as_bytes())?;
    Some(MarketFiles {
        roster,
        trades,
        mode,
    })
}

fn read_script<'a>(options: &Options, plain: &[&'a str]) -> Option<Form<'a>>
    ensures { option_map read_form result ≡ script_of (read_options options.now) (map (λ word. word.now) plain.now) }
{
    match plain {
        [roster, journal] if options.has_workers_alone() => {
            Some(Form::Script(ScriptWords {
                roster,
                journal,
                workers: options.workers(),
            }))
        }
        _ => None,
    }
}

fn read_serve<'a>(options: &Options, plain: &[&'a str]) -> Option<Form<'a>>
    ensures { option_map read_form result ≡ serve_of (read_options options.now) (map (λ word. word.now) plain.now) }
{
    match plain {
        [roster, journal, address] if options.has_no_other() => {
            Some(Form::Serve(ServiceWords {
                roster,
                journal,
                address,
                seats: options.seats(),
                connections: options.connections(),
                workers: options.workers(),
                idle: options.idle,
            }))
        }
        _ => None,
    }
}

fn read_check<'a>(options: &Options, plain: &[&'a str]) -> Option<Form<'a>>
    ensures { option_map read_form result ≡ check_of (read_options options.now) (map (λ word. word.now) plain.now) }
{
    match plain {
        [roster, trades, mode, proposal] if options.has_none() => {
            let market = read_market(roster, trades, mode)?;
            Some(Form::Check(CheckWords { market, proposal }))
        }
        _ => None,
    }
}

fn read_solve<'a>(options: &Options, plain: &[&'a str]) -> Option<Form<'a>>
    ensures { option_map read_form result ≡ solve_of (read_options options.now) (map (λ word. word.now) plain.now) }
{
    match plain {
        [roster, trades, mode] if options.has_workers_alone() => {
            let market = read_market(roster, trades, mode)?;
            Some(Form::Solve {
                market,
                workers: options.workers(),
            })
        }
        _ => None,
    }
}

fn read_gen<'a>(options: &Options, plain: &[&'a str]) -> Option<Form<'a>>
    ensures { option_map read_form result ≡ gen_of (read_options options.now) (map (λ word. word.now) plain.now) }
{
    match plain {
        [number] if options.has_workers_alone() => {
            let number = count_of(MOST_NUMBER, number.as_bytes())?;
            let workers = options.workers();
            Some(Form::Gen { number, workers })
        }
        _ => None,
    }
}

fn read_replay<'a>(options: &Options, plain: &[&'a str]) -> Option<Form<'a>>
    ensures { option_map read_form result ≡ replay_of (read_options options.now) (map (λ word. word.now) plain.now) }
{
    match plain {
        [roster, journal] if options.has_none() => Some(Form::Replay(ReplayWords {
            roster,
            journal,
        })),
        _ => None,
    }
}

fn read_roll<'a>(options: &Options, plain: &[&'a str]) -> Option<Form<'a>>
    ensures { option_map read_form result ≡ roll_of (read_options options.now) (map (λ word. word.now) plain.now) }
{
    match plain {
        [roster, journal, new_roster] if options.has_roll_alone() => {
            Some(Form::Roll(RollWords {
                roster,
                journal,
                new_roster,
                matured: options.matured,
                cancel: options.cancel,
            }))
        }
        _ => None,
    }
}

// A standby of these words; none where its name or its key is no name.
fn read_standby<'a>(
    compare: bool,
    roster: &'a str,
    journal: &'a str,
    name: &str,
    key: &str,
) -> Option<Form<'a>>
    ensures { option_map read_form result ≡ standby_of compare roster.now journal.now name.now key.now }
{
    let name = Name::read(name.as_bytes())?;
    let key = Name::read(key.as_bytes())?;
    Some(Form::Follow(StandbyWords {
        roster,
        journal,
        name,
        key,
        compare,
    }))
}

fn read_follow<'a>(options: &Options, plain: &[&'a str]) -> Option<Form<'a>>
    ensures { option_map read_form result ≡ follow_of (read_options options.now) (map (λ word. word.now) plain.now) }
{
    match plain {
        [roster, journal, name, key] if options.has_compare_alone() => {
            read_standby(options.compare, roster, journal, name, key)
        }
        _ => None,
    }
}

// The form of this name, with these words behind it.
fn form_named<'a>(name: &str, parts: &Parts<'a>) -> Option<Form<'a>>
    ensures { option_map read_form result ≡ form_named name.now (read_parts parts.now) }
{
    let plain = parts.plain.as_slice();
    if name == "script" {
        read_script(&parts.options, plain)
    } else if name == "serve" {
        read_serve(&parts.options, plain)
    } else if name == "check" {
        read_check(&parts.options, plain)
    } else if name == "solve" {
        read_solve(&parts.options, plain)
    } else if name == "gen" {
        read_gen(&parts.options, plain)
    } else if name == "replay" {
        read_replay(&parts.options, plain)
    } else if name == "roll" {
        read_roll(&parts.options, plain)
    } else if name == "follow" {
        read_follow(&parts.options, plain)
    } else {
        None
    }
}

/// What the words ask for; none exactly where they are out of form.
pub fn read_words(words: &[String]) -> Option<Form<'_>>
    ensures { option_map read_form result ≡ form_of (map string_bytes words.now) }
{
    match words {
        [] => None,
        [name, rest @ ..] => form_named(name.as_str(), &parts_of(rest)?),
    }
}
