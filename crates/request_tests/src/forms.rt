//! A line of each form, as a writer writes it.

/// Each form with each of its options and keywords, one space between two words.
pub const FORMS: &str = "\
edit A put a/b =abc
edit A put . =
edit A fill big 268435456 00
edit A fill big 0 ff
edit A link l =a/b
edit A dir d
edit A other o
edit A exec a on
edit A exec a off
edit A del .
show A
ancestor s
step s 1000000
until s scan-alpha
sync create A B
@c 7 sync create --name=s --label=a=1 --label=b=2 --mode=one-way-safe --ignore-vcs --ignore=*.o --ignore= --paused --max-entry-count=1 --max-staging-file-size=16777215 A B
sync list
sync list --label=a=1
sync flush s
@c 18446744073709551615 sync flush --skip-wait s
@c 1 sync pause s
sync resume fwrd_ffffffff-ffff-ffff-ffff-ffffffffffff
sync reset s
sync terminate sync_00000000-0000-4000-8000-000000000000
sync report s
forward create tcp:localhost:1 tcp:127.0.0.1:65535
@c 7 forward create --name=f --paused tcp:localhost:1 tcp:localhost:2
forward list
forward pause f
@c 8 forward resume f
forward terminate f
conn f open
conn f write 0 near =x
conn f fill 4294967295 far 1048576 0a
conn f read 1 near 65536
conn f close-write 1 near
conn f close 1 far
conn f move near 0
conn f move far 18446744073709551615
conn f cut";
