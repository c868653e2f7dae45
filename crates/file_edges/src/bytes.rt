// The bytes of a file by words with single blanks between them. A word is numbers with commas between them, each a byte
// or, behind a w, two bytes, low byte first; a number and a * before them say how often they stand there.
use numbers::write_number;
use std::alloc::Global;

pub(crate) fn bytes_of(heap: Global, words: &str) -> anyhow::Result<Vec<u8>> {
    let mut bytes = Vec::new(heap);
    for word in words.split(' ') {
        push_word(&mut bytes, word)?;
    }
    Ok(bytes)
}

fn push_word(bytes: &mut Vec<u8>, word: &str) -> anyhow::Result<()> {
    match word.split_once('*') {
        Some((times, numbers)) => {
            let times = times.parse::<u32>()?;
            for _turn in 0..times {
                push_numbers(bytes, numbers)?;
            }
            Ok(())
        }
        None => push_numbers(bytes, word),
    }
}

fn push_numbers(bytes: &mut Vec<u8>, numbers: &str) -> anyhow::Result<()> {
    for number in numbers.split(',') {
        push_number(bytes, number)?;
    }
    Ok(())
}

fn push_number(bytes: &mut Vec<u8>, number: &str) -> anyhow::Result<()> {
    match number.strip_prefix('w') {
        Some(digits) => {
            let mut pair = [0u8; 2];
            write_number(&mut pair, digits.parse::<u16>()? as u64);
            bytes.extend_from_slice(&pair)?;
        }
        None => bytes.push(number.parse::<u8>()?)?,
    }
    Ok(())
}
