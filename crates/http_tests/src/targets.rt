//! Tests of escapes (ESCAPES, UNESCAPES, EACH), arguments (ARGUMENTS, PAIRS) and targets (TARGETS, REFUSED); the values were worked out from the standards
//! apart from the program.
use crate::rows::{Subject, hold};
use crate::texts::*;
use resty_base::Bytes;
use std::alloc::{AllocError, Global};
use uri_args::*;

/// Bytes are escaped and unescaped.
const ESCAPES: &str = "\
escape Az09-._~ => [Az09-._~]
escape !'()*/?# => [%21%27%28%29%2A%2F%3F%23]
escape \u{c3}\u{a9}\0\u{ff} => [%C3%A9%00%FF]
escape %41 => [%2541]
escape a b+c => [a%20b%2Bc]";

const UNESCAPES: &str = "\
unescape %41%4 => [A%4]
unescape %zz => [%zz]
unescape %%41 => [%A]
unescape a++b => [a  b]
unescape %2B+ => [+ ]
unescape %2525 => [%25]
unescape %c3%A9 => [\u{c3}\u{a9}]
unescape %0g%00 => [%0g\0]
unescape % => [%]";

/// Each byte has one escape, which is unescaped to it; all but letters, digits and `-._~` are escaped.
const EACH: &str = "\
escape \x00\x01\x02\x03\x04\x05\x06\x07\x08\x09␊\x0b\x0c␍\x0e\x0f\x10\x11\x12\x13\x14\x15\x16\x17\x18\x19\x1a\x1b\x1c\x1d\x1e\x1f !\"#$%&'()*+,-./01\
23456789:;<=>? => [\
%00%01%02%03%04%05%06%07%08%09%0A%0B%0C%0D%0E%0F%10%11%12%13%14%15%16%17%18%19%1A%1B%1C%1D%1E%1F%20%21%22%23%24%25%26%27%28%29%2A%2B%2C-.%2F01234567\
89%3A%3B%3C%3D%3E%3F]
unescape %00%01%02%03%04%05%06%07%08%09%0A%0B%0C%0D%0E%0F%10%11%12%13%14%15%16%17%18%19%1A%1B%1C%1D%1E%1F%20%21%22%23%24%25%26%27%28%29%2A%2B%2C%2D\
%2E%2F%30%31%32%33%34%35%36%37%38%39%3A%3B%3C%3D%3E%3F => [\
\x00\x01\x02\x03\x04\x05\x06\x07\x08\x09␊\x0b\x0c␍\x0e\x0f\x10\x11\x12\x13\x14\x15\x16\x17\x18\x19\x1a\x1b\x1c\x1d\x1e\x1f !\"#$%&'()*+,-./012345678\
9:;<=>?]
escape @ABCDEFGHIJKLMNOPQRSTUVWXYZ[\\]^_`abcdefghijklmnopqrstuvwxyz{|}~\x7f => [\
%40ABCDEFGHIJKLMNOPQRSTUVWXYZ%5B%5C%5D%5E_%60abcdefghijklmnopqrstuvwxyz%7B%7C%7D~%7F]
unescape %40%41%42%43%44%45%46%47%48%49%4A%4B%4C%4D%4E%4F%50%51%52%53%54%55%56%57%58%59%5A%5B%5C%5D%5E%5F%60%61%62%63%64%65%66%67%68%69%6A%6B%6C%6D\
%6E%6F%70%71%72%73%74%75%76%77%78%79%7A%7B%7C%7D%7E%7F => [\
@ABCDEFGHIJKLMNOPQRSTUVWXYZ[\\]^_`abcdefghijklmnopqrstuvwxyz{|}~\x7f]
escape \u{80}\u{81}\u{82}\u{83}\u{84}\u{85}\u{86}\u{87}\u{88}\u{89}\u{8a}\u{8b}\u{8c}\u{8d}\u{8e}\u{8f}\u{90}\u{91}\u{92}\u{93}\u{94}\u{95}\u{96}\
\u{97}\u{98}\u{99}\u{9a}\u{9b}\u{9c}\u{9d}\u{9e}\u{9f}\u{a0}\u{a1}\u{a2}\u{a3}\u{a4}\u{a5}\u{a6}\u{a7}\u{a8}\u{a9}\u{aa}\u{ab}\u{ac}\u{ad}\u{ae}\
\u{af}\u{b0}\u{b1}\u{b2}\u{b3}\u{b4}\u{b5}\u{b6}\u{b7}\u{b8}\u{b9}\u{ba}\u{bb}\u{bc}\u{bd}\u{be}\u{bf} => [\
%80%81%82%83%84%85%86%87%88%89%8A%8B%8C%8D%8E%8F%90%91%92%93%94%95%96%97%98%99%9A%9B%9C%9D%9E%9F%A0%A1%A2%A3%A4%A5%A6%A7%A8%A9%AA%AB%AC%AD%AE%AF%B0\
%B1%B2%B3%B4%B5%B6%B7%B8%B9%BA%BB%BC%BD%BE%BF]
unescape %80%81%82%83%84%85%86%87%88%89%8A%8B%8C%8D%8E%8F%90%91%92%93%94%95%96%97%98%99%9A%9B%9C%9D%9E%9F%A0%A1%A2%A3%A4%A5%A6%A7%A8%A9%AA%AB%AC%AD\
%AE%AF%B0%B1%B2%B3%B4%B5%B6%B7%B8%B9%BA%BB%BC%BD%BE%BF => [\
\u{80}\u{81}\u{82}\u{83}\u{84}\u{85}\u{86}\u{87}\u{88}\u{89}\u{8a}\u{8b}\u{8c}\u{8d}\u{8e}\u{8f}\u{90}\u{91}\u{92}\u{93}\u{94}\u{95}\u{96}\u{97}\
\u{98}\u{99}\u{9a}\u{9b}\u{9c}\u{9d}\u{9e}\u{9f}\u{a0}\u{a1}\u{a2}\u{a3}\u{a4}\u{a5}\u{a6}\u{a7}\u{a8}\u{a9}\u{aa}\u{ab}\u{ac}\u{ad}\u{ae}\u{af}\
\u{b0}\u{b1}\u{b2}\u{b3}\u{b4}\u{b5}\u{b6}\u{b7}\u{b8}\u{b9}\u{ba}\u{bb}\u{bc}\u{bd}\u{be}\u{bf}]
escape \u{c0}\u{c1}\u{c2}\u{c3}\u{c4}\u{c5}\u{c6}\u{c7}\u{c8}\u{c9}\u{ca}\u{cb}\u{cc}\u{cd}\u{ce}\u{cf}\u{d0}\u{d1}\u{d2}\u{d3}\u{d4}\u{d5}\u{d6}\
\u{d7}\u{d8}\u{d9}\u{da}\u{db}\u{dc}\u{dd}\u{de}\u{df}\u{e0}\u{e1}\u{e2}\u{e3}\u{e4}\u{e5}\u{e6}\u{e7}\u{e8}\u{e9}\u{ea}\u{eb}\u{ec}\u{ed}\u{ee}\
\u{ef}\u{f0}\u{f1}\u{f2}\u{f3}\u{f4}\u{f5}\u{f6}\u{f7}\u{f8}\u{f9}\u{fa}\u{fb}\u{fc}\u{fd}\u{fe}\u{ff} => [\
%C0%C1%C2%C3%C4%C5%C6%C7%C8%C9%CA%CB%CC%CD%CE%CF%D0%D1%D2%D3%D4%D5%D6%D7%D8%D9%DA%DB%DC%DD%DE%DF%E0%E1%E2%E3%E4%E5%E6%E7%E8%E9%EA%EB%EC%ED%EE%EF%F0\
%F1%F2%F3%F4%F5%F6%F7%F8%F9%FA%FB%FC%FD%FE%FF]
unescape %C0%C1%C2%C3%C4%C5%C6%C7%C8%C9%CA%CB%CC%CD%CE%CF%D0%D1%D2%D3%D4%D5%D6%D7%D8%D9%DA%DB%DC%DD%DE%DF%E0%E1%E2%E3%E4%E5%E6%E7%E8%E9%EA%EB%EC%ED\
%EE%EF%F0%F1%F2%F3%F4%F5%F6%F7%F8%F9%FA%FB%FC%FD%FE%FF => [\
\u{c0}\u{c1}\u{c2}\u{c3}\u{c4}\u{c5}\u{c6}\u{c7}\u{c8}\u{c9}\u{ca}\u{cb}\u{cc}\u{cd}\u{ce}\u{cf}\u{d0}\u{d1}\u{d2}\u{d3}\u{d4}\u{d5}\u{d6}\u{d7}\
\u{d8}\u{d9}\u{da}\u{db}\u{dc}\u{dd}\u{de}\u{df}\u{e0}\u{e1}\u{e2}\u{e3}\u{e4}\u{e5}\u{e6}\u{e7}\u{e8}\u{e9}\u{ea}\u{eb}\u{ec}\u{ed}\u{ee}\u{ef}\
\u{f0}\u{f1}\u{f2}\u{f3}\u{f4}\u{f5}\u{f6}\u{f7}\u{f8}\u{f9}\u{fa}\u{fb}\u{fc}\u{fd}\u{fe}\u{ff}]";

/// The most arguments, a text, and the arguments in it.
const ARGUMENTS: &str = "\
args 0  => none
args 0 a => [a]
args 0 a= => [a:]
args 0 =1&b => [b]
args 0 && => none
args 0 a=1=2 => [a:1=2]
args 0 a=1;b=2 => [a:1;b=2]
args 0 %61=+%2B => [a: +]
args 0 a+b=c => [a b:c]
args 0 %3D=1 => [=:1]
args 0 a&a=1&a => [a][a:1][a]
args 2 a&b&c => [a][b]
args 1 =x&a&b => [a]
args 0 %=1 => [%:1]
args 0 %00=1 => [\0:1]
args 0 +=1 => [ :1]
args 0 a=%26&b=%zz => [a:&][b:%zz]
args 0 a?b=c#d& => [a?b:c#d]";

/// Arguments, with a `;` after each, and their text.
const PAIRS: &str = "\
text => []
text a; => [a]
text a:; => [a=]
text a b:c&d;\u{c3}\u{a9}; => [a%20b=c%26d&%C3%A9]
text ;b:=; => [&b=%3D]";

/// Targets, their paths, their arguments, and the hosts of those that name one.
const TARGETS: &str = "\
target // => [/][]
target /a//b///c => [/a/b/c][]
target /a/. => [/a/][]
target /a/.. => [/][]
target /a/./b => [/a/b][]
target /... => [/...][]
target /.a/..b => [/.a/..b][]
target /a/%2E%2e/b => [/b][]
target /a%2f%2fb => [/a/b][]
target /a//../b => [/b][]
target /a+b => [/a+b][]
target /%25%34%31 => [/%41][]
target /a?b%zz => [/a][b%zz]
target /a?b?c => [/a][b?c]
target /a? => [/a][]
target /a#b?c => [/a#b][c]
target /%3Fa?b => [/?a][b]
target /a/b/../../c/ => [/c/][]
target /. => [/][]
target /a/../ => [/][]
target /%01\u{ff} => [/\x01\u{ff}][]
target http://H:80/a/../b?c => [/b][c][h]
target http://[::1]:80/x => [/x][][[::1]]
target http://:80/x => [/x][][]
target http://u@h// => [/][][u@h]";

const REFUSED: &str = "\
target  => refused
target a => refused
target * => refused
target ?x => refused
target /.. => refused
target /%2e%2e/ => refused
target /a/../../b => refused
target /../ => refused
target /%00 => refused
target /% => refused
target /%4 => refused
target /%4g => refused
target http://h => refused
target http:///x => refused
target HTTP://h/ => refused
target https://h/ => refused";

/// What a call of `uri_args` gives.
pub(crate) fn answer(alloc: Global, call: &str) -> Result<String, AllocError> {
    let mut all = String::new(alloc);
    let (word, given) = call.split_once(' ').unwrap_or((call, ""));
    write_call(alloc, &mut all, word, given)?;
    Ok(all)
}

/// Writes what a call gives.
fn write_call(alloc: Global, all: &mut String, word: &str, given: &str) -> Result<(), AllocError> {
    match word {
        "escape" => write_part(all, &escape(alloc, &bytes_of(alloc, given)?)?),
        "unescape" => write_part(all, &unescape(alloc, &bytes_of(alloc, given)?)?),
        "args" => write_args(alloc, all, given),
        "text" => write_part(all, &args_text(alloc, &pairs_of(alloc, given)?)?),
        _ => write_target(alloc, all, &bytes_of(alloc, given)?),
    }
}

/// Writes the arguments of `MOST TEXT`, each as `[NAME]` or `[NAME:VALUE]`.
fn write_args(alloc: Global, all: &mut String, given: &str) -> Result<(), AllocError> {
    let (most, text) = given.split_once(' ').unwrap_or((given, ""));
    let pairs = args_of(alloc, &bytes_of(alloc, text)?, most.parse().unwrap_or(0))?;
    if pairs.is_empty() {
        return all.push_str("none");
    }
    for pair in &pairs {
        write_pair(all, pair)?;
    }
    Ok(())
}

fn write_pair(all: &mut String, pair: &Pair) -> Result<(), AllocError> {
    all.push('[')?;
    write(all, &pair.name)?;
    if let Some(value) = &pair.value {
        all.push(':')?;
        write(all, value)?;
    }
    all.push(']')
}

/// Arguments with a `;` after each.
fn pairs_of(alloc: Global, text: &str) -> Result<Vec<Pair>, AllocError> {
    let mut pairs = Vec::new(alloc);
    for pair in text.split_terminator(';') {
        pairs.push(pair_of(alloc, pair)?)?;
    }
    Ok(pairs)
}

/// An argument, `NAME` or `NAME:VALUE`.
fn pair_of(alloc: Global, text: &str) -> Result<Pair, AllocError> {
    let (name, value) = match text.split_once(':') {
        Some((name, value)) => (name, Some(bytes_of(alloc, value)?)),
        None => (text, None),
    };
    let name = bytes_of(alloc, name)?;
    Ok(Pair { name, value })
}

/// Writes path, arguments and host of a target.
fn write_target(alloc: Global, all: &mut String, text: &Bytes) -> Result<(), AllocError> {
    let Some(target) = target_of(alloc, text)? else {
        return all.push_str("refused");
    };
    write_part(all, &target.path)?;
    write_part(all, &target.args)?;
    match &target.host {
        Some(host) => write_part(all, host),
        None => Ok(()),
    }
}

#[test]
fn escapes_arguments_and_targets(rt: HostRuntime) {
    hold(&rt, rt.alloc(), Subject::Target, ESCAPES);
    hold(&rt, rt.alloc(), Subject::Target, UNESCAPES);
    hold(&rt, rt.alloc(), Subject::Target, EACH);
    hold(&rt, rt.alloc(), Subject::Target, ARGUMENTS);
    hold(&rt, rt.alloc(), Subject::Target, PAIRS);
    hold(&rt, rt.alloc(), Subject::Target, TARGETS);
    hold(&rt, rt.alloc(), Subject::Target, REFUSED);
}
