//! Tests of the order of handlers: what follows each outcome in each phase, by what of the head was sent: single ones (ENDED to WITHOUT_ACCESS), and each of a
//! request (REQUEST), of one that was redirected ten times (REDIRECTED) and of a subrequest (SUBREQUEST).
use crate::rows::expect;
use phases::{Next, Outcome, Phase, Sent, after};
use resty_base::Bytes;
use std::alloc::Global;
use std::process::Abort;
use uri_args::Target;

/// How handlers end: the columns of rows that say no outcome.
const OUTCOMES: &str =
    "ended, exit-ok, exit 201, exit 404, exit 444, redirect 302, exec, exec-named, failed, spent";

/// The outcome that a text says.
fn outcome(text: &str) -> Outcome {
    let (word, status) = text.split_once(' ').unwrap_or((text, ""));
    match word {
        "ended" => Outcome::Ended,
        "exit-ok" => Outcome::ExitOk,
        "exit" => Outcome::Exit(status.parse().unwrap_or(0)),
        "redirect" => Outcome::Redirect(status.parse().unwrap_or(0), Bytes::from_static(b"/b")),
        "exec" => Outcome::Exec(Target {
            path: Bytes::from_static(b"/b"),
            args: Bytes::new(),
            host: None,
        }),
        "exec-named" => Outcome::ExecNamed(Bytes::from_static(b"@b")),
        "failed" => Outcome::Failed,
        _ => Outcome::Spent,
    }
}

fn phase(word: &str) -> Phase {
    match word {
        "rewrite" => Phase::Rewrite,
        "access" => Phase::Access,
        "content" => Phase::Content,
        "header-filter" => Phase::HeaderFilter,
        "body-filter" => Phase::BodyFilter,
        _ => Phase::Log,
    }
}

fn sent(word: &str) -> Sent {
    match word {
        "no" => Sent::No,
        "before" => Sent::Before,
        _ => Sent::Here,
    }
}

fn in_words(next: Next) -> &'static str {
    match next {
        Next::Run(Phase::Access) => " access",
        Next::Run(Phase::Content) => " content",
        Next::Run(_) => " another phase",
        Next::Reply(_) => " a status",
        Next::Again => " again",
        Next::Finish => " finish",
        Next::HangUp => " close",
    }
}

/// Writes what follows; of an answer its status.
fn write_next(all: &mut String, next: Next) {
    let _ = match next {
        Next::Reply(status) => write!(all, " {status}"),
        next => all.push_str(in_words(next)),
    };
}

/// What follows a handler after so many redirects: `PHASE SENT OUTCOME`, or `PHASE SENT` with each outcome in turn.
fn following(alloc: Global, handler: &str, sub: bool, redirects: u8) -> String {
    let mut all = String::new(alloc);
    let (name, how) = handler.split_once(' ').unwrap_or((handler, ""));
    let (when, outcomes) = how.split_once(' ').unwrap_or((how, OUTCOMES));
    for text in outcomes.split(", ") {
        let next = after(phase(name), sub, sent(when), redirects, &outcome(text));
        write_next(&mut all, next);
    }
    all
}

/// Tests each row, `HANDLER: WHAT FOLLOWS`, of a request or of a subrequest.
fn hold(rt: &impl Abort, alloc: Global, sub: bool, redirects: u8, rows: &str) {
    for row in rows.lines() {
        let (handler, expected) = row.split_once(':').unwrap_or((row, ""));
        expect(
            rt,
            following(alloc, handler, sub, redirects).as_str(),
            expected,
            row,
        );
    }
}

/// A handler that ends leads on.
const ENDED: &str = "\
rewrite no ended: access
rewrite before exit-ok: access
rewrite here ended: finish
access no exit-ok: content
access before exit-ok: content
access here exit-ok: finish
content no ended: finish
header-filter no ended: finish
body-filter before exit-ok: finish
log before ended: finish";

/// A status is answered where nothing was.
const STATUSES: &str = "\
content no exit 404: 404
content before exit 404: finish
content no exit 201: finish
content no exit 299: finish
access no exit 300: 300
rewrite no exit 444: close
content here exit 444: close
content no redirect 302: 302
rewrite here redirect 301: finish
header-filter no exit 403: 403";

/// What fails is answered or closes.
const FAILED: &str = "\
content no failed: 500
content here failed: close
access before spent: close
rewrite no spent: 500
header-filter no failed: close
body-filter before failed: close
header-filter no spent: 500
log here failed: finish
log before exit 500: finish
log before spent: close";

/// A request begins anew ten times.
const FIRST_EXEC: &str = "\
access no exec: again
content here exec: again";

const TENTH_EXEC: &str = "\
access no exec: again
content no exec-named: again";

const ELEVENTH_EXEC: &str = "\
access no exec: 500
access here exec: close
content no exec-named: 500";

/// A subrequest has no access phase.
const WITHOUT_ACCESS: &str = "\
rewrite no ended: content
rewrite here exit-ok: finish
rewrite no exit 444: 444
content here exit 444: finish
content no ended: finish";

/// Columns: ended, exit of itself, exit by 201, 404 and 444, redirect, exec of a path and of a name, failed, spent.
const REQUEST: &str = "\
rewrite no: access access finish 404 close 302 again again 500 500
rewrite before: access access finish finish close finish again again close close
rewrite here: finish finish finish finish close finish again again close close
access no: content content finish 404 close 302 again again 500 500
access before: content content finish finish close finish again again close close
access here: finish finish finish finish close finish again again close close
content no: finish finish finish 404 close 302 again again 500 500
content before: finish finish finish finish close finish again again close close
content here: finish finish finish finish close finish again again close close
header-filter no: finish finish finish 404 close 302 again again close 500
header-filter before: finish finish finish finish close finish again again close close
header-filter here: finish finish finish finish close finish again again close close
body-filter no: finish finish finish 404 close 302 again again close 500
body-filter before: finish finish finish finish close finish again again close close
body-filter here: finish finish finish finish close finish again again close close
log no: finish finish finish finish finish finish finish finish finish close
log before: finish finish finish finish finish finish finish finish finish close
log here: finish finish finish finish finish finish finish finish finish close";

const REDIRECTED: &str = "\
rewrite no: access access finish 404 close 302 500 500 500 500
access before: content content finish finish close finish close close close close
content here: finish finish finish finish close finish close close close close
header-filter no: finish finish finish 404 close 302 500 500 close 500
log no: finish finish finish finish finish finish finish finish finish close";

const SUBREQUEST: &str = "\
rewrite no: content content finish 404 444 302 again again 500 500
rewrite before: content content finish finish finish finish again again close close
rewrite here: finish finish finish finish finish finish again again close close
content no: finish finish finish 404 444 302 again again 500 500
content before: finish finish finish finish finish finish again again close close
content here: finish finish finish finish finish finish again again close close
header-filter no: finish finish finish 404 444 302 again again close 500
body-filter before: finish finish finish finish finish finish again again close close";

#[test]
fn each_outcome_is_followed(rt: HostRuntime) {
    hold(&rt, rt.alloc(), false, 0, ENDED);
    hold(&rt, rt.alloc(), false, 0, STATUSES);
    hold(&rt, rt.alloc(), false, 0, FAILED);
    hold(&rt, rt.alloc(), false, 0, FIRST_EXEC);
    hold(&rt, rt.alloc(), false, 9, TENTH_EXEC);
    hold(&rt, rt.alloc(), false, 10, ELEVENTH_EXEC);
    hold(&rt, rt.alloc(), true, 0, WITHOUT_ACCESS);
    hold(&rt, rt.alloc(), false, 0, REQUEST);
    hold(&rt, rt.alloc(), false, 10, REDIRECTED);
    hold(&rt, rt.alloc(), true, 0, SUBREQUEST);
}
