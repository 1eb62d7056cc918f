//! Documents of the standard, doubtful corners, markers and values, whose expected answers come from the standard
//! and from another reader.

use indexmap::IndexMap;
use std::alloc::Global;
use std::fmt::Write;
use std::test::Fail;
use test_check::{is_row, is_text};
use warg_values::Text;
use yaml_small::{
    Event, Marker, Parser, Resolved, ScanError, Style, Yaml, YamlList, YamlPairs, resolve,
};

/// How an event begins in a table: a scalar with its style.
fn sign(event: &Event) -> &'static str {
    match event {
        Event::StreamStart | Event::StreamEnd | Event::DocumentStart | Event::DocumentEnd => "",
        Event::SequenceStart => " [",
        Event::SequenceEnd => " ]",
        Event::MappingStart => " {",
        Event::MappingEnd => " }",
        Event::Scalar(_, Style::Plain) => " :",
        Event::Scalar(_, Style::SingleQuoted) => " '",
        Event::Scalar(_, Style::DoubleQuoted) => " \"",
        Event::Scalar(_, Style::Literal) => " |",
        Event::Scalar(_, Style::Folded) => " >",
    }
}

/// The text of a scalar; other events have none.
fn content(event: &Event) -> &str {
    match event {
        Event::Scalar(text, _) => text.as_str(),
        _ => "",
    }
}

/// How a table writes a line feed, a tab and a backslash.
fn escape(character: char) -> Option<&'static str> {
    match character {
        '\n' => Some("\\n"),
        '\t' => Some("\\t"),
        '\\' => Some("\\\\"),
        _ => None,
    }
}

/// Adds an event.
fn push_event(out: &mut String, event: &Event) -> Result<(), Fail> {
    out.push_str(sign(event))?;
    for character in content(event).chars() {
        match escape(character) {
            Some(written) => out.push_str(written)?,
            None => out.push(character)?,
        }
    }
    Ok(())
}

/// An error's kind, and its place.
fn parts(error: ScanError) -> (&'static str, Option<Marker>) {
    match error {
        ScanError::Form(marker) => ("Form", Some(marker)),
        ScanError::NotCarried(marker) => ("NotCarried", Some(marker)),
        ScanError::TooDeep(marker) => ("TooDeep", Some(marker)),
        ScanError::Memory => ("Memory", None),
    }
}

/// Adds an error's kind and its place.
fn push_error(out: &mut String, error: ScanError) -> Result<(), Fail> {
    match parts(error) {
        (kind, Some(Marker { line, col, .. })) => write!(out, " !{kind} {line}:{col}")?,
        (kind, None) => write!(out, " !{kind}")?,
    }
    Ok(())
}

/// What the parser tells next. It stands alone, since a call brings its whole contract with it.
fn next(alloc: Global, parser: &mut Parser<'_>) -> Result<(Event, Marker), ScanError> {
    parser.next_token(alloc)
}

/// Adds what the parser told. Whether more may come.
fn push_told(out: &mut String, told: &Result<(Event, Marker), ScanError>) -> Result<bool, Fail> {
    match told {
        Ok((event, _)) => {
            push_event(out, event)?;
            Ok(*event != Event::StreamEnd)
        }
        Err(error) => {
            push_error(out, *error)?;
            Ok(false)
        }
    }
}

/// Adds what the parser tells next. Whether more may come.
fn push_next(alloc: Global, out: &mut String, parser: &mut Parser<'_>) -> Result<bool, Fail> {
    push_told(out, &next(alloc, parser))
}

/// The events of a text's nodes, and the error where one comes, each behind a space.
fn emitted(alloc: Global, text: &str) -> Result<String, Fail> {
    let mut out = String::new(alloc);
    let mut parser = Parser::new(alloc, text);
    for _ in 0..u64::MAX {
        if !push_next(alloc, &mut out, &mut parser)? {
            break;
        }
    }
    Ok(out)
}

/// Fails at the first text that emits other events.
fn are_emitted(alloc: Global, table: &[(&str, &str)]) -> Result<(), Fail> {
    for (text, want) in table {
        let events = emitted(alloc, text)?;
        is_row(text, events.as_str().trim_start(), want)?;
    }
    Ok(())
}

/// The error among events.
fn error_in(events: &str) -> &str {
    match events.split_once("!") {
        Some((_, error)) => error,
        None => "none",
    }
}

/// Fails at the first text that is refused otherwise, or not.
fn are_refused(alloc: Global, table: &[(&str, &str)]) -> Result<(), Fail> {
    for (text, want) in table {
        let events = emitted(alloc, text)?;
        is_row(text, error_in(events.as_str()), want)?;
    }
    Ok(())
}

#[test]
fn carried_examples_of_the_standard(rt: HostRuntime) -> Result<(), Fail> {
    are_emitted(rt.alloc(), EXAMPLES)
}

#[test]
fn refused_examples_of_the_standard(rt: HostRuntime) -> Result<(), Fail> {
    are_refused(rt.alloc(), REFUSED)
}

#[test]
fn doubtful_white_space_and_comments(rt: HostRuntime) -> Result<(), Fail> {
    are_emitted(rt.alloc(), WHITE_SPACE)
}

#[test]
fn doubtful_scalars(rt: HostRuntime) -> Result<(), Fail> {
    are_emitted(rt.alloc(), SCALARS)
}

#[test]
fn doubtful_flows_keys_and_documents(rt: HostRuntime) -> Result<(), Fail> {
    are_emitted(rt.alloc(), STRUCTURE)
}

/// Adds an event's mark. Whether more may come.
fn push_mark(out: &mut String, event: &Event, marker: Marker) -> Result<bool, Fail> {
    let Marker { line, col, index } = marker;
    write!(out, "{line}:{col}:{index} ")?;
    Ok(*event != Event::StreamEnd)
}

/// Adds the mark of the next event. Whether more may come.
fn push_next_mark(alloc: Global, out: &mut String, parser: &mut Parser<'_>) -> Result<bool, Fail> {
    let (event, marker) = next(alloc, parser)?;
    push_mark(out, &event, marker)
}

/// The marks of a text's events, each as line, column and index.
fn marks(alloc: Global, text: &str) -> Result<String, Fail> {
    let mut out = String::new(alloc);
    let mut parser = Parser::new(alloc, text);
    for _ in 0..u64::MAX {
        if !push_next_mark(alloc, &mut out, &mut parser)? {
            break;
        }
    }
    Ok(out)
}

/// Fails at the first text whose events have other marks.
fn are_marked(alloc: Global, table: &[(&str, &str)]) -> Result<(), Fail> {
    for (text, want) in table {
        is_row(text, &marks(alloc, text)?, want)?;
    }
    Ok(())
}

#[test]
fn markers_count_lines_and_characters(rt: HostRuntime) -> Result<(), Fail> {
    are_marked(rt.alloc(), MARKED)
}

/// So many lists, each but the first in the one before.
fn nested(alloc: Global, depth: usize, open: &str, close: &str) -> Result<String, Fail> {
    let mut out = String::new(alloc);
    for _ in 0..depth {
        out.push_str(open)?;
    }
    for _ in 0..depth {
        out.push_str(close)?;
    }
    Ok(out)
}

/// Fails where so many lists are refused by another error.
fn nests(alloc: Global, row: (usize, &str, &str, &str)) -> Result<(), Fail> {
    let (depth, open, close, want) = row;
    let text = nested(alloc, depth, open, close)?;
    let events = emitted(alloc, text.as_str())?;
    is_text(error_in(events.as_str()), want)
}

#[test]
fn the_65th_list_is_too_deep(rt: HostRuntime) -> Result<(), Fail> {
    nests(rt.alloc(), (64, "[", "]", "none"))?;
    nests(rt.alloc(), (65, "[", "]", "TooDeep 1:64"))?;
    nests(rt.alloc(), (65, "- ", "", "TooDeep 1:128"))
}

/// What a peek tells. It stands alone, since a call brings its whole contract with it.
fn peek(alloc: Global, parser: &mut Parser<'_>) -> Result<(Event, Marker), ScanError> {
    parser.peek(alloc)
}

/// Adds what a call tells, and what a peek told before it, where it is something else.
fn push_both(
    out: &mut String,
    peeked: &Result<(Event, Marker), ScanError>,
    told: &Result<(Event, Marker), ScanError>,
) -> Result<(), Fail> {
    if peeked != told {
        write!(out, "({peeked:?})")?;
    }
    write!(out, "{told:?};")?;
    Ok(())
}

/// Adds what the next call tells. Where a peek tells something else, it stands between brackets.
fn push_call(alloc: Global, out: &mut String, parser: &mut Parser<'_>) -> Result<(), Fail> {
    let peeked = peek(alloc, parser);
    let told = next(alloc, parser);
    push_both(out, &peeked, &told)
}

/// What so many calls tell. Where a peek tells something else, it stands between brackets.
fn told(alloc: Global, text: &str, calls: usize) -> Result<String, Fail> {
    let mut out = String::new(alloc);
    let mut parser = Parser::new(alloc, text);
    for _ in 0..calls {
        push_call(alloc, &mut out, &mut parser)?;
    }
    Ok(out)
}

/// Fails where so many calls tell something else.
fn is_told(alloc: Global, text: &str, calls: usize, want: &str) -> Result<(), Fail> {
    is_text(&told(alloc, text, calls)?, want)
}

#[test]
fn a_refusal_and_the_end_come_again(rt: HostRuntime) -> Result<(), Fail> {
    is_told(rt.alloc(), "- ]", 5, REFUSED_AGAIN)?;
    is_told(rt.alloc(), "# nothing\n\n", 4, ENDED_AGAIN)
}

/// Fails at the first text that stands for something else.
fn are_resolved(table: &[(&str, Resolved)]) -> Result<(), Fail> {
    for (text, want) in table {
        let found = resolve(text);
        if found != *want {
            return Err(Fail::new(format_args!("{text:?} stands for {found:?}")));
        }
    }
    Ok(())
}

#[test]
fn texts_stand_for_values(_rt: HostRuntime) -> Result<(), Fail> {
    are_resolved(VALUES)
}

/// A map of these keys, with the numbers from 1 on.
fn numbered(alloc: Global, keys: &[&str]) -> Result<IndexMap<Text, Yaml>, Fail> {
    let mut pairs = IndexMap::new(alloc);
    let mut number = 0i64;
    for key in keys {
        number = number.saturating_add(1);
        pairs.insert(Text::copy_of(alloc, key)?, Yaml::Integer(number))?;
    }
    Ok(pairs)
}

/// Pairs of these keys, with the numbers from 1 on.
fn pairs(alloc: Global, keys: &[&str]) -> Result<YamlPairs, Fail> {
    let pairs = numbered(alloc, keys)?;
    Ok(YamlPairs::new(alloc, pairs)?)
}

/// A list of pairs and of nothing.
fn list(alloc: Global, pairs: YamlPairs) -> Result<YamlList, Fail> {
    Ok(YamlList::new(vec![in alloc; Yaml::Hash(pairs), Yaml::Null]?))
}

/// A count and a list, as `Debug` prints it.
fn list_text(alloc: Global, count: usize, list: &YamlList) -> Result<String, Fail> {
    let items = list.as_slice();
    Ok(format!(in alloc; "{count} {items:?}")?)
}

/// How many pairs these keys make, and a list of the pairs and of nothing, as `Debug` prints it.
fn listed(alloc: Global, keys: &[&str]) -> Result<String, Fail> {
    let pairs = pairs(alloc, keys)?;
    let count = pairs.as_slice().len();
    let list = list(alloc, pairs)?;
    list_text(alloc, count, &list)
}

#[test]
fn a_repeated_key_keeps_its_place(rt: HostRuntime) -> Result<(), Fail> {
    is_text(&listed(rt.alloc(), &["b", "a", "b"])?, REPEATED)
}

/// The pairs in which `b` came twice, first with 1 and then with 3, and `a` with 2 between them.
const REPEATED: &str =
    "2 [Hash(YamlPairs { pairs: [(Text { text: \"b\" }, Integer(3)), (Text { text: \"a\" }, Integer(2))] }), Null]";

/// What five calls tell of `- ]`.
const REFUSED_AGAIN: &str = "Ok((StreamStart, Marker { line: 1, col: 0, index: 0 }));\
Ok((DocumentStart, Marker { line: 1, col: 0, index: 0 }));\
Ok((SequenceStart, Marker { line: 1, col: 0, index: 0 }));\
Err(Form(Marker { line: 1, col: 2, index: 2 }));\
Err(Form(Marker { line: 1, col: 2, index: 2 }));";

/// What four calls tell of a text of a comment.
const ENDED_AGAIN: &str = "Ok((StreamStart, Marker { line: 1, col: 0, index: 0 }));\
Ok((StreamEnd, Marker { line: 3, col: 0, index: 11 }));\
Ok((StreamEnd, Marker { line: 3, col: 0, index: 11 }));\
Ok((StreamEnd, Marker { line: 3, col: 0, index: 11 }));";

/// Texts, and the marks of their events.
const MARKED: &[(&str, &str)] = &[
    (
        "é: |\r\n é\r\nb:\r\n- c",
        "1:0:0 1:0:0 1:0:0 1:0:0 1:3:3 3:0:10 4:0:14 4:2:16 4:3:17 4:3:17 4:3:17 4:3:17 ",
    ),
    (
        "\u{feff}[a, {b: c}] # d\n",
        "1:0:0 1:0:1 1:0:1 1:1:2 1:4:5 1:5:6 1:8:9 1:9:10 1:10:11 2:0:17 2:0:17 ",
    ),
    (
        "a:\nb:\n",
        "1:0:0 1:0:0 1:0:0 1:0:0 1:2:2 2:0:3 2:2:5 3:0:6 3:0:6 3:0:6 ",
    ),
];

/// Texts and what they stand for.
const VALUES: &[(&str, Resolved)] = &[
    ("", Resolved::Text),
    ("~", Resolved::Null),
    ("null", Resolved::Null),
    ("Null", Resolved::Text),
    ("true", Resolved::Boolean(true)),
    ("false", Resolved::Boolean(false)),
    ("True", Resolved::Text),
    ("12", Resolved::Integer(12)),
    ("-0", Resolved::Integer(0)),
    ("+5", Resolved::Integer(5)),
    ("++5", Resolved::Integer(5)),
    ("+-5", Resolved::Integer(-5)),
    ("-+5", Resolved::Text),
    ("007", Resolved::Integer(7)),
    ("0o14", Resolved::Integer(12)),
    ("0o8", Resolved::Text),
    ("0xC", Resolved::Integer(12)),
    ("0x-fF", Resolved::Integer(-255)),
    ("0x", Resolved::Text),
    ("+", Resolved::Text),
    (
        "9223372036854775807",
        Resolved::Integer(9223372036854775807),
    ),
    (
        "-9223372036854775808",
        Resolved::Integer(-9223372036854775808),
    ),
    ("9223372036854775808", Resolved::RealForm),
    ("0x8000000000000000", Resolved::Text),
    ("1.5", Resolved::RealForm),
    ("-1.", Resolved::RealForm),
    (".5", Resolved::RealForm),
    (".", Resolved::Text),
    ("1.2.3", Resolved::Text),
    ("1e3", Resolved::RealForm),
    ("1.5E-3", Resolved::RealForm),
    ("1e", Resolved::Text),
    ("e3", Resolved::Text),
    (".inf", Resolved::RealForm),
    ("-.INF", Resolved::RealForm),
    (".iNF", Resolved::Text),
    (".nan", Resolved::RealForm),
    ("-.nan", Resolved::Text),
    ("12 ", Resolved::Text),
    ("a", Resolved::Text),
];

/// Examples of chapters 2, 6, 7 and 8 of YAML 1.2.2 that are carried, and the events of their nodes.
const EXAMPLES: &[(&str, &str)] = &[
    // Example 2.1
    (
        "- Mark McGwire\n- Sammy Sosa\n- Ken Griffey\n",
        "[ :Mark McGwire :Sammy Sosa :Ken Griffey ]",
    ),
    // Example 2.2
    (
        "hr:  65    # Home runs\navg: 0.278 # Batting average\nrbi: 147   # Runs Batted In\n",
        "{ :hr :65 :avg :0.278 :rbi :147 }",
    ),
    // Example 2.3
    (
        "american:\n- Boston Red Sox\n- Detroit Tigers\nnational:\n- New York Mets\n- Chicago Cubs\n",
        "{ :american [ :Boston Red Sox :Detroit Tigers ] :national [ :New York Mets :Chicago Cubs ] }",
    ),
    // Example 2.4
    (
        "-\n  name: Mark McGwire\n  hr:   65\n-\n  name: Sammy Sosa\n  hr:   63\n",
        "[ { :name :Mark McGwire :hr :65 } { :name :Sammy Sosa :hr :63 } ]",
    ),
    // Example 2.5
    (
        "- [name        , hr, avg  ]\n- [Mark McGwire, 65, 0.278]\n",
        "[ [ :name :hr :avg ] [ :Mark McGwire :65 :0.278 ] ]",
    ),
    // Example 2.6
    (
        "Mark McGwire: {hr: 65, avg: 0.278}\nSammy Sosa: {\n    hr: 63,\n    avg: 0.288,\n  }\n",
        "{ :Mark McGwire { :hr :65 :avg :0.278 } :Sammy Sosa { :hr :63 :avg :0.288 } }",
    ),
    // Example 2.9
    (
        "---\nhr: # 1998 hr ranking\n- Mark McGwire\n- Sammy Sosa\n# 1998 rbi ranking\nrbi:\n- Sammy Sosa\n- Ken Griffey\n",
        "{ :hr [ :Mark McGwire :Sammy Sosa ] :rbi [ :Sammy Sosa :Ken Griffey ] }",
    ),
    // Example 2.12
    (
        "---\n# Products purchased\n- item    : Super Hoop\n  quantity: 1\n- item    : Basketball\n  quantity: 4\n",
        "[ { :item :Super Hoop :quantity :1 } { :item :Basketball :quantity :4 } ]",
    ),
    // Example 2.13
    (
        "# ASCII Art\n--- |\n  \\//||\\/||\n  // ||  ||__\n",
        "|\\\\//||\\\\/||\\n// ||  ||__\\n",
    ),
    // Example 2.14
    (
        "--- >\n  Mark McGwire's\n  year was crippled\n  by a knee injury.\n",
        ">Mark McGwire's year was crippled by a knee injury.\\n",
    ),
    // Example 2.15
    (
        "--- >\n Sammy Sosa completed another\n fine season with great stats.\n\n   63 Home Runs\n   0.288 Batting Average\n\n What a year!\n",
        ">Sammy Sosa completed another fine season with great stats.\\n\\n  63 Home Runs\\n  0.288 Batting Average\\n\\nWhat a year!\\n",
    ),
    // Example 2.16
    (
        "name: Mark McGwire\naccomplishment: >\n  Mark set a major league\n  home run record in 1998.\nstats: |\n  65 Home Runs\n  0.278 Batting Average\n",
        "{ :name :Mark McGwire :accomplishment >Mark set a major league home run record in 1998.\\n :stats |65 Home Runs\\n0.278 Batting Average\\n }",
    ),
    // Example 2.17
    (
        "unicode: \"Sosa did fine.\\u263A\"\ncontrol: \"\\b1998\\t1999\\t2000\\n\"\nhex esc: \"\\x0d\\x0a is \\r\\n\"\n\nsingle: '\"Howdy!\" he cried.'\nquoted: ' # Not a ''comment''.'\ntie-fighter: '|\\-*-/|'\n",
        "{ :unicode \"Sosa did fine.☺ :control \"\u{8}1998\\t1999\\t2000\\n :hex esc \"\r\\n is \r\\n :single '\"Howdy!\" he cried. :quoted ' # Not a 'comment'. :tie-fighter '|\\\\-*-/| }",
    ),
    // Example 2.19
    (
        "canonical: 12345\ndecimal: +12345\noctal: 0o14\nhexadecimal: 0xC\n",
        "{ :canonical :12345 :decimal :+12345 :octal :0o14 :hexadecimal :0xC }",
    ),
    // Example 6.1
    (
        "  # Leading comment line spaces are\n  # neither content nor indentation.\n    \nNot indented:\n By one space: |\n    By four\n      spaces\n Flow style: [    # Leading spaces\n   By two,        # in flow style\n  Also by two,    # are neither\n  \tStill by two   # content nor\n    ]             # indentation.\n",
        "{ :Not indented { :By one space |By four\\n  spaces\\n :Flow style [ :By two :Also by two :Still by two ] } }",
    ),
    // Example 6.6
    (
        ">-\n  trimmed\n  \n \n\n  as\n  space\n",
        ">trimmed\\n\\n\\nas space",
    ),
    // Example 6.7
    (
        ">\n  foo \n \n  \t bar\n\n  baz\n",
        ">foo \\n\\n\\t bar\\n\\nbaz\\n",
    ),
    // Example 6.9
    ("key:    # Comment\n  value\n", "{ :key :value }"),
    // Example 6.11
    (
        "key:    # Comment\n        # lines\n  value\n\n\n",
        "{ :key :value }",
    ),
    // Example 7.7
    ("'here''s to \"quotes\"'\n", "'here's to \"quotes\""),
    // Example 7.10
    (
        "# Outside flow collection:\n- ::vector\n- \": - ()\"\n- Up, up, and away!\n- -123\n- https://example.com/foo#bar\n# Inside flow collection:\n- [ ::vector,\n  \": - ()\",\n  \"Up, up and away!\",\n  -123,\n  https://example.com/foo#bar ]\n",
        "[ :::vector \": - () :Up, up, and away! :-123 :https://example.com/foo#bar [ :::vector \": - () \"Up, up and away! :-123 :https://example.com/foo#bar ] ]",
    ),
    // Example 7.13
    (
        "- [ one, two, ]\n- [three ,four]\n",
        "[ [ :one :two ] [ :three :four ] ]",
    ),
    // Example 7.15
    (
        "- { one : two , three: four , }\n- {five: six,seven : eight}\n",
        "[ { :one :two :three :four } { :five :six :seven :eight } ]",
    ),
    // Example 7.18
    (
        "{\n\"adjacent\":value,\n\"readable\": value,\n\"empty\":\n}\n",
        "{ \"adjacent :value \"readable :value \"empty :~ }",
    ),
    // Example 7.23
    (
        "- [ a, b ]\n- { a: b }\n- \"a\"\n- 'b'\n- c\n",
        "[ [ :a :b ] { :a :b } \"a 'b :c ]",
    ),
    // Example 8.2
    (
        "- |\n detected\n- >\n \n  \n  # detected\n",
        "[ |detected\\n >\\n\\n# detected\\n ]",
    ),
    // Example 8.4
    (
        "strip: |-\n  text\nclip: |\n  text\n",
        "{ :strip |text :clip |text\\n }",
    ),
    // Example 8.6
    ("strip: >-\n\nclip: >\n\n", "{ :strip > :clip > }"),
    // Example 8.7
    ("|\n literal\n \ttext\n\n\n", "|literal\\n\\ttext\\n"),
    // Example 8.8
    (
        "|\n \n  \n  literal\n   \n  \n  text\n\n # Comment\n",
        "|\\n\\nliteral\\n \\n\\ntext\\n",
    ),
    // Example 8.9
    (">\n folded\n text\n\n\n", ">folded text\\n"),
    // Example 8.10
    (
        ">\n\n folded\n line\n\n next\n line\n   * bullet\n\n   * list\n   * lines\n\n last\n line\n\n# Comment\n",
        ">\\nfolded line\\nnext line\\n  * bullet\\n\\n  * list\\n  * lines\\n\\nlast line\\n",
    ),
    // Example 8.14
    (
        "block sequence:\n  - one\n  - two : three\n",
        "{ :block sequence [ :one { :two :three } ] }",
    ),
    // Example 8.15
    (
        "- # Empty\n- |\n block node\n- - one # Compact\n  - two # sequence\n- one: two # Compact mapping\n",
        "[ :~ |block node\\n [ :one :two ] { :one :two } ]",
    ),
    // Example 8.16
    (
        "block mapping:\n key: value\n",
        "{ :block mapping { :key :value } }",
    ),
];

/// A refused example for each form that is not carried, with the error's kind, line and column.
const REFUSED: &[(&str, &str)] = &[
    // Two documents (2.7)
    (
        "---\n- Mark McGwire\n\n# Team ranking\n---\n- Chicago Cubs\n",
        "NotCarried 5:0",
    ),
    // A document behind the end mark (2.8)
    (
        "---\ntime: 20:03:20\n...\n---\ntime: 20:03:47\n",
        "NotCarried 4:0",
    ),
    // An anchor (2.10)
    ("rbi:\n  - &SS Sammy Sosa\n", "NotCarried 2:4"),
    // An alias (2.10)
    ("rbi:\n  - *SS\n", "NotCarried 2:4"),
    // A complex key (2.11)
    ("? - Detroit Tigers\n  - Chicago cubs\n", "NotCarried 1:0"),
    // A plain scalar over lines (2.18)
    (
        "plain:\n  This unquoted scalar\n  spans many lines.\n",
        "NotCarried 3:2",
    ),
    // A quoted scalar over lines (2.18)
    (
        "quoted: \"So does this\n  quoted scalar.\"\n",
        "NotCarried 1:21",
    ),
    // A tag (2.23)
    ("---\nnot-date: !!str 2002-04-28\n", "NotCarried 2:10"),
    // A dash before a tab (6.3)
    ("- - baz\n  -\tbaz\n", "Form 2:2"),
    // A folded quote (6.5)
    (
        "Folding:\n  \"Empty line\n   \t\n  as a line feed\"\n",
        "NotCarried 2:13",
    ),
    // A flow map as a key (6.12)
    ("{ first: Sammy, last: Sosa }:\n  hr: 65\n", "Form 1:28"),
    // A directive (6.13)
    ("%FOO  bar baz\n--- \"foo\"\n", "NotCarried 1:0"),
    // A tab as indentation
    ("a:\n\tb: c\n", "NotCarried 2:0"),
    // An empty key (7.3)
    ("{\n  : bar,\n}\n", "Form 2:2"),
    // A quoted key in a flow list (7.4)
    (
        "'implicit block key' : [\n  'implicit flow key' : value,\n ]\n",
        "NotCarried 2:22",
    ),
    // A plain key in a flow list (7.19)
    ("[\nfoo: bar\n]\n", "NotCarried 2:3"),
    // A plain scalar over lines (7.12)
    ("1st non-empty\n\n 2nd non-empty \n", "NotCarried 3:1"),
    // An explicit flow key (7.16)
    ("{\n? explicit: entry,\n}\n", "NotCarried 2:0"),
    // An omitted key (7.17)
    ("{\nomitted value:,\n: omitted key,\n}\n", "Form 3:0"),
    // A key over lines (7.22)
    ("[ foo\n bar: invalid,\n]\n", "NotCarried 2:1"),
    // An indentation indicator (8.1)
    ("- >1 # Indentation indicator\n  folded\n", "NotCarried 1:3"),
    // Kept line ends (8.4)
    ("keep: |+\n  text\n", "NotCarried 1:7"),
    // A block key (8.17)
    ("? |\n  block key\n: - one\n", "NotCarried 1:0"),
    // An omitted block key (8.18)
    ("plain key: in-line value\n: # Both empty\n", "Form 2:0"),
    // A compact key (8.19)
    ("- sun: yellow\n- ? earth: blue\n", "NotCarried 2:2"),
    // A tag on a map (8.20)
    (
        "- !!map # Block collection\n  foo : bar\n",
        "NotCarried 1:2",
    ),
];

/// Doubtful corners of white space and comments, with the events or the refusal of each text.
const WHITE_SPACE: &[(&str, &str)] = &[
    ("# \u{1}", "!Form 1:2"),
    ("a # b\u{1}", ":a !Form 1:5"),
    ("a\n# b\u{1}\n", ":a !Form 2:3"),
    ("a: # \u{7f}\n b", "{ :a !Form 1:5"),
    ("- a\n\t# b\u{1}", "[ :a ] !Form 2:4"),
    ("[a # \u{1}\n]", "[ :a !Form 1:5"),
    ("[a\n# \u{1}\n]", "[ :a !Form 2:2"),
    ("a\n...\n# \u{1}", ":a !Form 3:2"),
    ("a:\tb", ":a:\\tb"),
    ("-\ta", ":-\\ta"),
    ("a\tb", ":a\\tb"),
    ("- \t- a", "[ !NotCarried 1:2"),
    ("- \ta: b", "[ !NotCarried 1:2"),
    ("- \ta", "[ :a ]"),
    ("[a,\n\tb]", "[ :a :b ]"),
    ("a\t#b", ":a"),
    ("a : b", "{ :a :b }"),
    ("'a' : b", "{ 'a :b }"),
    ("{a : b, 'c' : d}", "{ :a :b 'c :d }"),
    ("{a\n: b}", "{ :a :b }"),
    ("a\n: b", ":a !NotCarried 2:0"),
];

/// Doubtful corners of scalars, with the events or the refusal of each text.
const SCALARS: &[(&str, &str)] = &[
    ("|-\t\nx", "|x"),
    (">-\t\nx", ">x"),
    ("|#c", "!Form 1:1"),
    ("'a'#c", "'a !Form 1:3"),
    ("[a]#c", "[ :a ] !Form 1:3"),
    ("[]#", "[ ] !Form 1:2"),
    ("| # c\nx", "|x\\n"),
    ("|-  # c\nx", "|x"),
    ("| x", "!Form 1:2"),
    ("a\u{7f}b", ":a !Form 1:1"),
    ("'a\u{85}b'", "!Form 1:2"),
    ("a\rb", ":a !Form 1:1"),
    ("\"a\u{2028}b\"", "\"a\u{2028}b"),
    ("a\u{feff}b", ":a\u{feff}b"),
    ("\"a\tb\"", "\"a\\tb"),
    ("\"a\\\tb\"", "!Form 1:2"),
    ("\"\\ud83d\\ude00\"", "!Form 1:1"),
    ("|\nx", "|x\\n"),
    ("|\n# x", "|# x\\n"),
    ("|\nx\n---\n", "|x\\n !NotCarried 3:0"),
    ("|\nx\n...\n", "|x\\n"),
    ("a: |\n x", "{ :a |x\\n }"),
    ("|\n    \n  x", "|  \\nx\\n"),
    ("|\n x\n   ", "|x\\n  \\n"),
    ("|\r\n a\r\n", "|a\\n"),
    ("a: |\n# c\n  x", "{ :a | !Form 3:2"),
    ("-\n|\n a", "[ :~ ] !Form 2:0"),
    ("k:\n|\n a", "{ :k :~ !Form 2:0"),
    ("|-+\nx", "!NotCarried 1:2"),
    ("|--\nx", "!Form 1:2"),
    ("'a\nb'", "!NotCarried 1:2"),
    ("'a", "!Form 1:2"),
];

/// Doubtful corners of flows, keys and documents, with the events or the refusal of each text.
const STRUCTURE: &[(&str, &str)] = &[
    ("a # c\n b", ":a !Form 2:1"),
    ("[a # c\n b]", "[ :a !Form 2:1"),
    ("a: b\n  c: d", "{ :a :b !NotCarried 2:2"),
    ("a: b\n  - c", "{ :a :b !NotCarried 2:2"),
    ("[a\n b]", "[ :a !NotCarried 2:1"),
    ("[a\n'b']", "[ :a !NotCarried 2:0"),
    ("[a\n[b]]", "[ :a !Form 2:0"),
    ("\"a\\\nb\"", "!NotCarried 1:3"),
    ("\"\\q\"", "!Form 1:1"),
    ("[a,\n---\n]", "[ :a !NotCarried 2:0"),
    ("[a,\n...\n]", "[ :a !Form 2:0"),
    ("a: [b,\nc]", "{ :a [ :b :c ] }"),
    ("[:x]", "[ ::x ]"),
    ("{:x}", "{ ::x :~ }"),
    ("[?z]", "[ :?z ]"),
    ("{?z: a}", "{ :?z :a }"),
    ("[[a]: b]", "[ [ :a ] !NotCarried 1:4"),
    ("[a: b]", "[ :a !NotCarried 1:2"),
    ("[a:]", "[ :a !NotCarried 1:2"),
    ("{[a]: b}", "{ !Form 1:1"),
    ("[a]: b", "[ :a ] !Form 1:3"),
    ("?", "!NotCarried 1:0"),
    ("a:\n# c\n\n- b", "{ :a [ :b ] }"),
    ("a: # c\n- b", "{ :a [ :b ] }"),
    ("- a:\n  - b", "[ { :a [ :b ] } ]"),
    ("---", ":~"),
    ("---\ta", "!NotCarried 1:3"),
    ("--- \ta", "!NotCarried 1:4"),
    ("---\t\na: 1", "{ :a :1 }"),
    ("a\n...\t", ":a"),
    ("---\u{1}", "!Form 1:3"),
    ("[\n---: a]", "[ :--- !NotCarried 2:3"),
    ("...", "!Form 1:0"),
    ("a\n...\nb", ":a !NotCarried 3:0"),
    ("a\n...\n...", ":a !Form 3:0"),
    ("  %a", "!NotCarried 1:2"),
    ("---\n%a", "!Form 2:0"),
    ("[1, &a", "[ :1 !NotCarried 1:4"),
    ("[&a", "[ !NotCarried 1:1"),
    ("a: b: c", "{ :a :b !Form 1:4"),
    ("a: 1\n---\nb: 2\n", "{ :a :1 } !NotCarried 2:0"),
    ("&a 1", "!NotCarried 1:0"),
    ("[1", "[ :1 !Form 1:2"),
    ("1.5", ":1.5"),
];
