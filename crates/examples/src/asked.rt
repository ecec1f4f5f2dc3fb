//! Decoders and text iterators after a first call: their further items lie in the bytes, or in the text.
use encode_unicode::{StrExt, U8SliceExt, U16SliceExt, Utf8Char};

/// A command's letter, and its argument, which follows the first space.
pub fn command(text: &str) -> Option<(Utf8Char, &str)> {
    let mut characters = text.utf8char_indices();
    let (_, letter) = characters.next()?;
    let (place, space) = characters.find(|x| x.1.eq_char(' '))?;
    Some((letter, &text[place + space.len()..]))
}

/// The last word of a line, with the line feed or space that ends it.
pub fn last_word(line: &str) -> Option<&str> {
    let mut characters = line.utf8char_indices();
    characters.next_back()?;
    let (place, space) = characters.rev().find(|x| x.1.eq_char(' '))?;
    Some(&line[place + space.len()..])
}

/// The bytes from the first invalid byte on that is not the first piece.
pub fn from_later_fault(bytes: &[u8]) -> &[u8] {
    let mut pieces = bytes.utf8char_indices();
    pieces.next();
    match pieces.find(|x| x.1.is_err()) {
        Some((place, _, _)) => &bytes[place..],
        None => &[],
    }
}

/// The bytes before the last invalid byte that is not the last piece.
pub fn before_earlier_fault(bytes: &[u8]) -> &[u8] {
    let mut pieces = bytes.utf8char_indices();
    pieces.next_back();
    match pieces.rev().find(|x| x.1.is_err()) {
        Some((place, _, _)) => &bytes[..place],
        None => &[],
    }
}

/// The first line, and how many invalid bytes come after it.
pub fn first_line(bytes: &[u8]) -> (&[u8], usize) {
    let mut pieces = bytes.utf8char_indices();
    let mut line = bytes;
    for (place, answer, _) in pieces.by_ref() {
        if answer.is_ok_and(|c| c.eq_char('\n')) {
            line = &bytes[0..place];
            break;
        }
    }
    (line, pieces.filter(|x| x.1.is_err()).count())
}

/// The units after the first lone surrogate that follows the byte order mark.
pub fn after_faulty_unit(units: &[u16]) -> Option<&[u16]> {
    let mut pieces = units.utf16char_indices();
    let (_, mark, _) = pieces.next()?;
    mark.ok()?;
    let (place, _, len) = pieces.find(|x| x.1.is_err())?;
    Some(&units[place + len..])
}

/// The bytes between the first piece and the first invalid byte after it.
pub fn before_later_fault(bytes: &[u8]) -> Option<&[u8]> {
    let mut pieces = bytes.utf8char_indices();
    let (front, _, len) = pieces.next()?;
    let (place, _, _) = pieces.find(|x| x.1.is_err())?;
    Some(&bytes[front + len..place])
}

/// The bytes between the first two invalid bytes: calls a decoder twice.
pub fn between_faults(bytes: &[u8]) -> Option<&[u8]> {
    let mut pieces = bytes.utf8char_indices();
    let (first, _, len) = pieces.find(|x| x.1.is_err())?;
    let (second, _, _) = pieces.find(|x| x.1.is_err())?;
    Some(&bytes[first + len..second])
}

/// The units between the byte order mark and the first lone surrogate.
pub fn before_faulty_unit(units: &[u16]) -> Option<&[u16]> {
    let mut pieces = units.utf16char_indices();
    let (front, mark, len) = pieces.next()?;
    mark.ok()?;
    let (place, _, _) = pieces.find(|x| x.1.is_err())?;
    Some(&units[front + len..place])
}

/// The name of a tag, between the sign that opens it and the first space.
pub fn tag_name(tag: &str) -> Option<&str> {
    let mut characters = tag.utf8char_indices();
    let (front, sign) = characters.next()?;
    let (place, _) = characters.find(|x| x.1.eq_char(' '))?;
    Some(&tag[front + sign.len()..place])
}

/// The last word of a sentence, without the stop that ends it.
pub fn word_before_stop(sentence: &str) -> Option<&str> {
    let mut characters = sentence.utf8char_indices();
    let (end, _) = characters.next_back()?;
    let (place, space) = characters.rev().find(|x| x.1.eq_char(' '))?;
    Some(&sentence[place + space.len()..end])
}
