//! However the bytes of clients are cut (CUT, of HI), and however clients come between one another (BETWEEN, of HI), each is sent what it is sent alone.

/// Two requests, in pieces of 1, 3, 7, 13 and 57 bytes, and one with a chunked body before another, in pieces of 1, 5 and 13.
pub(super) const CUT: &str = r#"arrive c1
bytes c1 "G"
bytes c1 "E"
bytes c1 "T"
bytes c1 " "
bytes c1 "/"
bytes c1 " "
bytes c1 "H"
bytes c1 "T"
bytes c1 "T"
bytes c1 "P"
bytes c1 "/"
bytes c1 "1"
bytes c1 "."
bytes c1 "1"
bytes c1 "\r"
bytes c1 "\n"
bytes c1 "H"
bytes c1 "o"
bytes c1 "s"
bytes c1 "t"
bytes c1 ":"
bytes c1 " "
bytes c1 "a"
bytes c1 "\r"
bytes c1 "\n"
bytes c1 "\r"
bytes c1 "\n"
> put c1 "<keep><hi>"
bytes c1 "\r"
bytes c1 "\n"
bytes c1 "G"
bytes c1 "E"
bytes c1 "T"
bytes c1 " "
bytes c1 "/"
bytes c1 " "
bytes c1 "H"
bytes c1 "T"
bytes c1 "T"
bytes c1 "P"
bytes c1 "/"
bytes c1 "1"
bytes c1 "."
bytes c1 "1"
bytes c1 "\r"
bytes c1 "\n"
bytes c1 "H"
bytes c1 "o"
bytes c1 "s"
bytes c1 "t"
bytes c1 ":"
bytes c1 " "
bytes c1 "a"
bytes c1 "\r"
bytes c1 "\n"
bytes c1 "\r"
bytes c1 "\n"
> put c1 "<keep><hi>"
stop
> close c1

arrive c1
bytes c1 "GET"
bytes c1 " / "
bytes c1 "HTT"
bytes c1 "P/1"
bytes c1 ".1\r"
bytes c1 "\nHo"
bytes c1 "st:"
bytes c1 " a\r"
bytes c1 "\n\r\n"
> put c1 "<keep><hi>"
bytes c1 "\r\nG"
bytes c1 "ET "
bytes c1 "/ H"
bytes c1 "TTP"
bytes c1 "/1."
bytes c1 "1\r\n"
bytes c1 "Hos"
bytes c1 "t: "
bytes c1 "a\r\n"
bytes c1 "\r\n"
> put c1 "<keep><hi>"
stop
> close c1

arrive c1
bytes c1 "GET / H"
bytes c1 "TTP/1.1"
bytes c1 "\r\nHost:"
bytes c1 " a\r\n\r\n\r"
> put c1 "<keep><hi>"
bytes c1 "\nGET / "
bytes c1 "HTTP/1."
bytes c1 "1\r\nHost"
bytes c1 ": a\r\n\r\n"
> put c1 "<keep><hi>"
stop
> close c1

arrive c1
bytes c1 "GET / HTTP/1."
bytes c1 "1\r\nHost: a\r\n\r"
bytes c1 "\n\r\nGET / HTTP"
> put c1 "<keep><hi>"
bytes c1 "/1.1\r\nHost: a"
bytes c1 "\r\n\r\n"
> put c1 "<keep><hi>"
stop
> close c1

arrive c1
bytes c1 "GET / HTTP/1.1\r\nHost: a\r\n\r\n\r\nGET / HTTP/1.1\r\nHost: a\r\n\r\n"
> put c1 "<keep><hi>"
> put c1 "<keep><hi>"
stop
> close c1

arrive c1
bytes c1 "P"
bytes c1 "O"
bytes c1 "S"
bytes c1 "T"
bytes c1 " "
bytes c1 "/"
bytes c1 " "
bytes c1 "H"
bytes c1 "T"
bytes c1 "T"
bytes c1 "P"
bytes c1 "/"
bytes c1 "1"
bytes c1 "."
bytes c1 "1"
bytes c1 "\r"
bytes c1 "\n"
bytes c1 "H"
bytes c1 "o"
bytes c1 "s"
bytes c1 "t"
bytes c1 ":"
bytes c1 " "
bytes c1 "a"
bytes c1 "\r"
bytes c1 "\n"
bytes c1 "T"
bytes c1 "r"
bytes c1 "a"
bytes c1 "n"
bytes c1 "s"
bytes c1 "f"
bytes c1 "e"
bytes c1 "r"
bytes c1 "-"
bytes c1 "E"
bytes c1 "n"
bytes c1 "c"
bytes c1 "o"
bytes c1 "d"
bytes c1 "i"
bytes c1 "n"
bytes c1 "g"
bytes c1 ":"
bytes c1 " "
bytes c1 "c"
bytes c1 "h"
bytes c1 "u"
bytes c1 "n"
bytes c1 "k"
bytes c1 "e"
bytes c1 "d"
bytes c1 "\r"
bytes c1 "\n"
bytes c1 "\r"
bytes c1 "\n"
> put c1 "<keep><hi>"
bytes c1 "3"
bytes c1 ";"
bytes c1 "a"
bytes c1 "="
bytes c1 "b"
bytes c1 "\r"
bytes c1 "\n"
bytes c1 "a"
bytes c1 "b"
bytes c1 "c"
bytes c1 "\r"
bytes c1 "\n"
bytes c1 "0"
bytes c1 "\r"
bytes c1 "\n"
bytes c1 "X"
bytes c1 ":"
bytes c1 " "
bytes c1 "y"
bytes c1 "\r"
bytes c1 "\n"
bytes c1 "\r"
bytes c1 "\n"
bytes c1 "G"
bytes c1 "E"
bytes c1 "T"
bytes c1 " "
bytes c1 "/"
bytes c1 " "
bytes c1 "H"
bytes c1 "T"
bytes c1 "T"
bytes c1 "P"
bytes c1 "/"
bytes c1 "1"
bytes c1 "."
bytes c1 "1"
bytes c1 "\r"
bytes c1 "\n"
bytes c1 "H"
bytes c1 "o"
bytes c1 "s"
bytes c1 "t"
bytes c1 ":"
bytes c1 " "
bytes c1 "a"
bytes c1 "\r"
bytes c1 "\n"
bytes c1 "\r"
bytes c1 "\n"
> put c1 "<keep><hi>"
stop
> close c1

arrive c1
bytes c1 "POST "
bytes c1 "/ HTT"
bytes c1 "P/1.1"
bytes c1 "\r\nHos"
bytes c1 "t: a\r"
bytes c1 "\nTran"
bytes c1 "sfer-"
bytes c1 "Encod"
bytes c1 "ing: "
bytes c1 "chunk"
bytes c1 "ed\r\n\r"
bytes c1 "\n3;a="
> put c1 "<keep><hi>"
bytes c1 "b\r\nab"
bytes c1 "c\r\n0\r"
bytes c1 "\nX: y"
bytes c1 "\r\n\r\nG"
bytes c1 "ET / "
bytes c1 "HTTP/"
bytes c1 "1.1\r\n"
bytes c1 "Host:"
bytes c1 " a\r\n\r"
bytes c1 "\n"
> put c1 "<keep><hi>"
stop
> close c1

arrive c1
bytes c1 "POST / HTTP/1"
bytes c1 ".1\r\nHost: a\r\n"
bytes c1 "Transfer-Enco"
bytes c1 "ding: chunked"
bytes c1 "\r\n\r\n3;a=b\r\nab"
> put c1 "<keep><hi>"
bytes c1 "c\r\n0\r\nX: y\r\n\r"
bytes c1 "\nGET / HTTP/1"
bytes c1 ".1\r\nHost: a\r\n"
bytes c1 "\r\n"
> put c1 "<keep><hi>"
stop
> close c1"#;

/// Three clients, each of which sends its request in three pieces; some don't send all.
pub(super) const BETWEEN: &str = r#"arrive c1
arrive c2
arrive c3
bytes c1 "GET / HTTP/1.1\r\nHo"
bytes c2 "GET / HTTP/1.1\r\nHo"
bytes c3 "GET / HTTP/1.1\r\nHo"
bytes c1 "st: a\r\n\r"
bytes c2 "st: a\r\n\r"
bytes c3 "st: a\r\n\r"
bytes c1 "\n"
> put c1 "<keep><hi>"
bytes c2 "\n"
> put c2 "<keep><hi>"
bytes c3 "\n"
> put c3 "<keep><hi>"
stop
> close c1
> close c2
> close c3

arrive c1
arrive c2
arrive c3
bytes c3 "GET / HTTP/1.1\r\nHo"
bytes c3 "st: a\r\n\r"
bytes c3 "\n"
> put c3 "<keep><hi>"
bytes c2 "GET / HTTP/1.1\r\nHo"
bytes c2 "st: a\r\n\r"
bytes c2 "\n"
> put c2 "<keep><hi>"
bytes c1 "GET / HTTP/1.1\r\nHo"
bytes c1 "st: a\r\n\r"
bytes c1 "\n"
> put c1 "<keep><hi>"
stop
> close c1
> close c2
> close c3

arrive c1
arrive c2
bytes c2 "GET / HTTP/1.1\r\nHo"
arrive c3
bytes c1 "GET / HTTP/1.1\r\nHo"
bytes c3 "GET / HTTP/1.1\r\nHo"
bytes c2 "st: a\r\n\r"
bytes c1 "st: a\r\n\r"
bytes c3 "st: a\r\n\r"
bytes c3 "\n"
> put c3 "<keep><hi>"
bytes c2 "\n"
> put c2 "<keep><hi>"
bytes c1 "\n"
> put c1 "<keep><hi>"
stop
> close c1
> close c2
> close c3

arrive c1
arrive c2
bytes c2 "GET / HTTP/1.1\r\nHo"
bytes c2 "st: a\r\n\r"
bytes c2 "\n"
> put c2 "<keep><hi>"
bytes c1 "GET / HTTP/1.1\r\nHo"
arrive c3
bytes c1 "st: a\r\n\r"
bytes c3 "GET / HTTP/1.1\r\nHo"
bytes c1 "\n"
> put c1 "<keep><hi>"
bytes c3 "st: a\r\n\r"
stop
> close c1
> close c2
> close c3

arrive c1
arrive c2
arrive c3
bytes c2 "GET / HTTP/1.1\r\nHo"
bytes c1 "GET / HTTP/1.1\r\nHo"
bytes c3 "GET / HTTP/1.1\r\nHo"
bytes c3 "st: a\r\n\r"
stop
> close c1
> close c2
> close c3

arrive c1
arrive c2
arrive c3
stop
> close c1
> close c2
> close c3"#;
