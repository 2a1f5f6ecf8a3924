//! Texts that are read, and lines that are not.

/// Each kind of entry, with the least and the greatest of its numbers.
pub const HISTORY: &[u8] = br##"moment 99999999999999
moment 0
arrive c1
arrive c999999999999999999
bytes c1 "a"
bytes s999999999999999999 " !\"#[\\]~\n\r\x00\x09\x1f\x7f\x80\xff"
ended c1
broken s1
ready c12
dialled s1
dialled s999999999999999999
refused s4
stop
put c1 ""
put s2 "a b = c"
later s7
lost c1
close s999999999999999999
dial c1 0.0.0.0 0 s1
dial c1 0.0.0.0 0 s999999999999999999
dial t2 255.255.255.255 65535 failed
log c1 "failed "
log t1 failed "x"
dict c1 d get "k" = none
dict t3 a-Z_0.9 set "k" "v" 1000 0 = done
dict c1 d add "k" -5 0 4294967295 = exists
dict c1 d replace "" true 999999999999999999 7 = missing
dict c1 d replace "k" false 0 7 = no memory
dict c1 d set "k" 999999999999999999 0 0 = no memory forcible
dict c1 d set "k" -999999999999999999 0 0 = done forcible
dict c1 d delete "a b" = done
dict c1 d incr "k" 1 0 0 = number 1
dict c1 d incr "k" -3 -4 5 = number -7 forcible
dict c1 d incr "k" 0 none = not a number
dict c1 d incr "k" 999999999999999999 none = range
dict c1 d incr "k" -999999999999999999 none = range
dict c1 d incr "k" 0 999999999999999999 999999999999999999 = number 999999999999999999
dict c1 d incr "k" 0 -999999999999999999 0 = number -999999999999999999
dict c1 d flush_all = done
dict c1 d flush_expired 0 = count 0
dict c1 d flush_expired 4294967295 = count 4294967295
dict c1 d get_keys 1024 = keys
dict c1 d get_keys 4294967295 = keys "a"
dict c1 d get_keys 2 = keys "a b" "" "\""
dict c1 d get "k" = found "v" 0
dict c1 d get "k" = found 0 4294967295
dict c1 d get "k" = found true 1
dict c1 d get "k" = found false 4294967295
take c2 "127.0.0.1:9000" = none
take c999999999999999999 "" = s999999999999999999 0
take t2 "A" = s2 4294967295
keep c2 s2 "A" 60000 30 = kept
keep c2 s999999999999999999 "A" 0 0 = kept s999999999999999999
keep t2 s3 "A = kept" 999999999999999999 4294967295 = kept s2
timer c2 5 = t1
timer t999999999999999999 5 = t999999999999999999
timer t2 999999999999999999 = full
timer c2 0 = exiting
start t1
start t999999999999999999
turned c2
turned c999999999999999999
dropped t3
dropped t999999999999999999
dropped c999999999999999999
"##;

/// An exchange with a reply of two parts.
pub const WHOLE_HISTORY: &[u8] = br##"moment 1700000000000
arrive c1
bytes c1 "GET /api HTTP/1.1\r\nHost: localhost:8080\r\nUser-Agent: curl/8.5.0\r\nAccept: */*\r\nX-Key: k1\r\n\r\n"
dict c1 hits incr "api" 1 0 0 = number 1
take c1 "127.0.0.1:9000" = none
dial c1 127.0.0.1 9000 s1
dialled s1
put s1 "hello\n"
bytes s1 "world\r\n"
keep c1 s1 "127.0.0.1:9000" 10000 8 = kept
put c1 "HTTP/1.1 200 OK\r\nServer: resty\r\nDate: Tue, 14 Nov 2023 22:13:20 GMT\r\n"
put c1 "Content-Type: text/plain\r\nTransfer-Encoding: chunked\r\nConnection: keep-alive\r\nX-Hits: 1\r\n\r\nc\r\none:7 world\n\r\n0\r\n\r\n"
stop
close c1
close s1
"##;

/// Each kind of line of a schedule.
pub const SCHEDULE: &[u8] = br##"fail listen
moment 0
moment 0
arrive c1
moment 99999999999999
moment 99999999999999
arrive c2
bytes c1 "a"
bytes s999999999999999999 "\x00"
ended c1
broken s1
ready c12
dialled s1
refused s999999999999999999
room c1 0
room s1 999999999999999999
room c2 all
fail next
fail dial
fail log
fail listen
fail put c1
fail put s999999999999999999
stop
"##;

/// The lines of the exchange that the world gives.
pub const WHOLE_SCHEDULE: &[u8] = br##"moment 1700000000000
arrive c1
bytes c1 "GET /api HTTP/1.1\r\nHost: localhost:8080\r\nUser-Agent: curl/8.5.0\r\nAccept: */*\r\nX-Key: k1\r\n\r\n"
dialled s1
bytes s1 "world\r\n"
stop
"##;

/// Lines that are no entries.
pub const OTHER_ENTRIES: &str = r##"
 stop
stop 
Stop
moment
moment 
moment 01
moment 00
moment +1
moment -1
moment 1 
moment  1
moment 100000000000000
moment 18446744073709551616
moment 1 2
arrive
arrive c
arrive c0
arrive c01
arrive s1
arrive 1
arrive c1000000000000000000
arrive c18446744073709551617
bytes c1
bytes c1 a
bytes c1 ""
bytes c1 "a
bytes c1 a"
bytes c1 "a" 
bytes c1  "a"
bytes  c1 "a"
bytes t1 "a"
bytes c1000000000000000000 "a"
bytes c1 "a"b"
bytes c1 "\x41"
bytes c1 "\x0A"
bytes c1 "\x0a"
bytes c1 "\x0d"
bytes c1 "\x22"
bytes c1 "\x5c"
bytes c1 "\xFF"
bytes c1 "\xg0"
bytes c1 "\x0"
bytes c1 "\t"
bytes c1 "\0"
bytes c1 "\a"
bytes c1 "\"
ended
ended c0
ended d1
broken s1 x
ready c01
dialled c1
dialled s0
dialled s1000000000000000000
refused c1
refused
room c1 1
fail next
put c0 "a"
put c1
put c1 a
later
later t1
lost c0
lost s
close s1000000000000000000
dial c1 0.0.0 0 s1
dial c1 0.0.0.0.0 0 s1
dial c1 256.0.0.0 0 s1
dial c1 0.256.0.0 0 s1
dial c1 0.0.256.0 0 s1
dial c1 0.0.0.256 0 s1
dial c1 00.0.0.0 0 s1
dial c1 0.0.0.0 65536 s1
dial c1 0.0.0.0 0 s0
dial c1 0.0.0.0 0 s1000000000000000000
dial c1 0.0.0.0 0 c1
dial c1 0.0.0.0 0 none
dial s1 0.0.0.0 0 s1
dial c1 0.0.0.0 0
log c1
log c1 x
log c1 failed
log c1  "x"
log c0 "x"
log s1 "x"
log c1 failed  "x"
log c1000000000000000000 "x"
log t1000000000000000000 "x"
dict c1 d/e get "k" = none
dict c1  get "k" = none
dict c1 d get "k"
dict c1 d get "k" =
dict c1 d get "k"= none
dict c1 d get "k" =  none
dict c1 d get  "k" = none
dict c1 d get k = none
dict s1 d get "k" = none
dict c1 d set "k" "v" 0 = done
dict c1 d set "k" "v" 0 4294967296 = done
dict c1 d set "k" "v" 1000000000000000000 0 = done
dict c1 d set "k" 1000000000000000000 0 0 = done
dict c1 d set "k" -1000000000000000000 0 0 = done
dict c1 d set "k" -0 0 0 = done
dict c1 d set "k" +1 0 0 = done
dict c1 d set "k" 01 0 0 = done
dict c1 d set "k" nil 0 0 = done
dict c1 d set "k" True 0 0 = done
dict c1 d add "k" "v" 0 = exists
dict c1 d replace "k" 0 0 = missing
dict c1 d delete "k" 0 = done
dict c1 d incr "k" 1 = number 1
dict c1 d incr "k" 1 none 0 = number 1
dict c1 d incr "k" 1 0 = number 1
dict c1 d incr "k" 1.5 none = number 1
dict c1 d incr "k" 1000000000000000000 none = range
dict c1 d incr "k" -1000000000000000000 none = range
dict c1 d incr "k" 0 1000000000000000000 0 = range
dict c1 d incr "k" 0 -1000000000000000000 0 = range
dict c1 d incr "k" 0 0 1000000000000000000 = range
dict c1 d flush_all 1 = done
dict c1 d flush_expired = count 0
dict c1 d flush_expired 4294967296 = count 0
dict c1 d flush_expired 0 = count 4294967296
dict c1 d get_keys 4294967296 = keys
dict c1 d get_keys 1 = keys 
dict c1 d get_keys 1 = keys a
dict c1 d get_keys 1 = keys "a"  "b"
dict c1 d get_keys 1 = keys "a""b"
dict c1 d get "k" = found "v"
dict c1 d get "k" = found "v" 4294967296
dict c1 d get "k" = done forced
dict c1 d get "k" = no
dict c1 d get "k" = no memories
dict c1 d get "k" = not a  number
dict c1 d get "k" = number
dict c1 d get "k" = number 1000000000000000000
dict c1 d get "k" = number -1000000000000000000
dict c1 d get "k" = exists 1
dict c1 d get "k" = missing forcible
dict c1 d get "k" = ranges
dict c1 d get "k" = count
dict c1 d get "k" = none 
dict c1 d push "k" = none
dict c1 d = none
take c1 "A" = none 0
take c1 "A" = s1
take c1 "A" = s0 1
take c1 "A" = s1000000000000000000 1
take c1 "A" = s1 4294967296
take c1 A = none
take s1 "A" = none
keep c1 c1 "A" 0 0 = kept
keep c1 s0 "A" 0 0 = kept
keep c1 s1000000000000000000 "A" 0 0 = kept
keep c1 s1 "A" 1000000000000000000 0 = kept
keep c1 s1 "A" 0 4294967296 = kept
keep c1 s1 "A" 0 0 = kept s0
keep c1 s1 "A" 0 0 = kept s1000000000000000000
keep c1 s1 "A" 0 0 = kept 
keep c1 s1 "A" 0 0
timer c1 0 = t0
timer c1 0 = t1000000000000000000
timer c1 0 = 1
timer c1 1000000000000000000 = full
timer c1 0 = never
timer c1 0
start 1
start t0
start c1
start t01
start t1000000000000000000
turned t1
turned c0
turned c1000000000000000000
dropped s1
dropped c0
dropped c1000000000000000000
dropped t1000000000000000000
dropped"##;

/// Lines with which no schedule begins.
pub const OTHER_LINES: &str = r##"
arrive c0
arrive c01
arrive c2
bytes c1 ""
bytes c1 "\x41"
bytes c1 "\x0A"
bytes  c1 "a"
bytes c1000000000000000000 "a"
ended c0
ended c1000000000000000000
broken x1
ready c1 
dialled c1
refused s0
dialled s1000000000000000000
refused s1000000000000000000
moment 100000000000000
moment 01
moment +1
moment 1 
moment  1
room c1
room c0 1
room c1 01
room c1 +1
room c1 -1
room c1 1000000000000000000
room c1  all
room c1 any
room c1 all 
room t1 all
room c1000000000000000000 all
 stop
stop 
Stop
fail
fail 
fail nexts
fail Next
fail dials
fail log c1
fail Listen
fail listen 
fail put
fail put c0
fail put t1
fail put s1000000000000000000
fail  put c1
put c1 "a"
later c1
close c1
log c1 "x"
start t1
turned c1
dropped c1"##;
