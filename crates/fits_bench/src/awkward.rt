//! Awkward files and scripts, which come too.

use crate::cards::{EXTENSION, PRIMARY};
use crate::files::{ImageText, end_header, fill_block, image_file, push_line, sky};
use crate::memory::Stored;
use crate::noise::Noise;
use crate::runs::{ERRORS, Outcome, REPORT};
use crate::template::Template;
use crate::text::{push_number, push_numbers, push_text};
use std::alloc::{AllocError, Global};
use std::io;

/// All of them, each so many times with other numbers.
pub fn take_awkward(alloc: Global, rounds: usize, noise: &mut Noise) -> io::Result<Outcome> {
    let mut outcome = Outcome::new();
    for _ in 0..rounds {
        one_name(alloc, &mut outcome, noise)?;
        many_extensions(alloc, &mut outcome, noise)?;
        blanks(alloc, &mut outcome, noise)?;
        long_lines(alloc, &mut outcome, noise)?;
        refusals(alloc, &mut outcome, noise)?;
    }
    Ok(outcome)
}

const ONE_NAME: &[&str] = &["KEY     =                  ### / once more", "KEY     ###"];

// A header of one name 10,000 times, half of it without a value.
fn one_name(alloc: Global, outcome: &mut Outcome, noise: &mut Noise) -> io::Result<()> {
    let mut file = Vec::new(alloc);
    Template::of(alloc, PRIMARY)?.push_copy(&mut file, 1, noise)?;
    let cards = Template::of(alloc, ONE_NAME)?;
    for number in 0..5000 {
        cards.push_copy(&mut file, number, noise)?;
    }
    end_header(&mut file)?;
    outcome.tell(alloc, REPORT, Stored(&file))?;
    let mut script = Vec::new(alloc);
    for _ in 0..100 {
        push_text(&mut script, "set 1 KEY")?;
        push_number(&mut script, noise.below(1000))?;
        push_text(&mut script, "\nunset 1 KEY\nget 1 KEY\ndel 1")?;
        push_number(&mut script, noise.within(5, 9000))?;
        push_text(&mut script, "\n")?;
    }
    push_line(&mut script, "pos 1 KEY")?;
    push_line(&mut script, "rep")?;
    outcome.edit(alloc, Stored(&file), &script)
}

// 10,000 HDUs, of which eight in nine have the name of others.
fn many_extensions(alloc: Global, outcome: &mut Outcome, noise: &mut Noise) -> io::Result<()> {
    let mut file = Vec::new(alloc);
    Template::of(alloc, PRIMARY)?.push_copy(&mut file, 1, noise)?;
    end_header(&mut file)?;
    let named = Template::of(alloc, EXTENSION)?;
    let empty = Template::of(alloc, EMPTY)?;
    for number in 2..=10_000u64 {
        if number % 9 == 0 {
            named.push_copy(&mut file, number, noise)?;
            end_header(&mut file)?;
            file.extend_from_slice(&[7; 3072])?;
            fill_block(&mut file, 0)?;
        } else {
            empty.push_copy(&mut file, number / 100, noise)?;
            end_header(&mut file)?;
        }
    }
    outcome.tell(alloc, ERRORS, Stored(&file))?;
    let mut script = Vec::new(alloc);
    for number in 0..500u64 {
        push_text(&mut script, "set")?;
        push_number(&mut script, noise.within(2, 9000))?;
        push_text(&mut script, " EXTNAME 'CCD00")?;
        push_text(&mut script, "' / named anew\n")?;
        if number % 100 == 99 {
            push_line(&mut script, "rm 5000")?;
            push_line(&mut script, "new 300 i16 20,20")?;
            push_line(&mut script, "rep")?;
        }
    }
    push_line(&mut script, "off")?;
    outcome.edit(alloc, Stored(&file), &script)
}

const EMPTY: &[&str] = &[
    "XTENSION= 'IMAGE   '           / image extension",
    "BITPIX  =                    8",
    "NAXIS   =                    0",
    "PCOUNT  =                    0",
    "GCOUNT  =                    1",
    "EXTNAME = 'PART@@@ '           / name of the part",
    "PARTNUM =                 #### / number of the part",
];

// A BLANK that changes under a large image, and columns that are filled from the first row to the
// last.
fn blanks(alloc: Global, outcome: &mut Outcome, noise: &mut Noise) -> io::Result<()> {
    let image = ImageText {
        bitpix: "32",
        axes: &[3000, 3000],
        blank: Some("-1"),
        bzero: None,
    };
    let tile = sky(alloc, 100_008, 4, 7, noise)?;
    let file = image_file(alloc, image, 4, &tile)?;
    let mut script = Vec::new(alloc);
    for number in 0..10u64 {
        push_text(&mut script, "set 1 BLANK")?;
        push_number(&mut script, noise.below(400))?;
        push_text(&mut script, "\nstat 1\nfill 1")?;
        let column = noise.within(1, 3000);
        push_number(&mut script, column)?;
        push_text(&mut script, ":")?;
        push_digits(&mut script, column)?;
        push_text(&mut script, ",1:3000")?;
        push_number(&mut script, number)?;
        push_text(&mut script, "\nsum 1\n")?;
    }
    outcome.edit(alloc, Stored(&file), &script)
}

// Lines of nearly 100,000 bytes: long strings, rows of values, and comments.
fn long_lines(alloc: Global, outcome: &mut Outcome, noise: &mut Noise) -> io::Result<()> {
    let image = ImageText {
        bitpix: "16",
        axes: &[20_000, 40],
        blank: None,
        bzero: None,
    };
    let tile = sky(alloc, 100_008, 2, 7, noise)?;
    let file = image_file(alloc, image, 2, &tile)?;
    let mut script = Vec::new(alloc);
    for number in 1..=20u64 {
        push_text(&mut script, "set 1 LONGTEXT '")?;
        push_many(&mut script, b"a text that goes on, ", 4500)?;
        push_number(&mut script, noise.below(1000))?;
        push_text(&mut script, "'\nget 1 LONGTEXT\nwrite 1 1:18000,")?;
        push_digits(&mut script, number)?;
        push_text(&mut script, ":")?;
        push_digits(&mut script, number)?;
        for _ in 0..18_000 {
            push_number(&mut script, noise.below(10_000))?;
        }
        push_text(&mut script, "\n#")?;
        push_many(&mut script, b" a remark", 11_000)?;
        push_text(&mut script, "\nrect 1 1:20000,")?;
        push_digits(&mut script, number)?;
        push_text(&mut script, ":")?;
        push_digits(&mut script, number)?;
        push_text(&mut script, "\n")?;
    }
    outcome.edit(alloc, Stored(&file), &script)
}

// A script of which nearly every line is refused, or is no command.
fn refusals(alloc: Global, outcome: &mut Outcome, noise: &mut Noise) -> io::Result<()> {
    let mut file = Vec::new(alloc);
    Template::of(alloc, PRIMARY)?.push_copy(&mut file, 1, noise)?;
    let cards = Template::of(alloc, &["COMMENT ####"])?;
    for number in 0..1000 {
        cards.push_copy(&mut file, number, noise)?;
    }
    end_header(&mut file)?;
    let mut script = Vec::new(alloc);
    for number in 0..10_000u64 {
        let text = match number % 10 {
            0 => "ins 1 2 NAXIS   =                    3\n",
            1 => "set 1 BITPIX",
            2 => "del 1 3\n",
            3 => "put 1 5 END\n",
            4 => "ins 2 1 COMMENT there is no such HDU\n",
            5 => "unset 1 ABSENT\n",
            6 => "mov 1 2 900\n",
            7 => "SET 1 KEY 5\n",
            8 => "set 1 KEY 'open\n",
            _ => "fill 1 1:1 5\n",
        };
        push_text(&mut script, text)?;
        if number % 10 == 1 {
            push_numbers(&mut script, &[noise.below(1000)])?;
            push_text(&mut script, "\n")?;
        }
    }
    outcome.edit(alloc, Stored(&file), &script)
}

// Adds a text so many times.
fn push_many(script: &mut Vec<u8>, text: &[u8], times: u64) -> Result<(), AllocError> {
    for _ in 0..times {
        script.extend_from_slice(text)?;
    }
    Ok(())
}

// Adds a number.
fn push_digits(script: &mut Vec<u8>, number: u64) -> Result<(), AllocError> {
    let mut digits = itoa::Buffer::new();
    push_text(script, digits.format(number))
}
