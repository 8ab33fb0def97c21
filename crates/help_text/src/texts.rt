//! What `help` says, made of the tables of docs/FORMATS.md by .ci/help.awk: not to be changed by
//! hand.

/// The commands.
pub(crate) const COMMANDS: &[&str] = &[
    "build APP OUT                                         builds an application into an image\n",
    "run IMAGE SCRIPT --steps N [--all] [--mem]            runs an image with a script, and writes its trace\n",
    "go APP SCRIPT --steps N [--all] [--mem]               builds an application and runs it\n",
    "list IMAGE                                            says what an image holds, as JSON\n",
    "sample SEED STEPS                                     runs a large sample, made of a number\n",
    "migrate IMAGE OUT                                     writes an image of the older form in the present one\n",
    "audit TRACE                                           says whether a text can be the trace of a run\n",
    "save IMAGE SCRIPT OUT --steps N                       puts the state that a run comes to into a file\n",
    "resume IMAGE SCRIPT STATE --steps N [--all] [--mem]   goes on from such a state\n",
    "debug IMAGE SCRIPT COMMANDS                           goes over a run forwards and back, by commands\n",
    "cover IMAGE SCRIPT --steps N [--labels]               counts how often a run executed each instruction\n",
    "sweep IMAGE SCRIPT ARRIVAL FROM TO --steps N [--mem]  tries every arrival time of some events\n",
    "timeline IMAGE SCRIPT --steps N [--names APP]         writes a run for a viewer of timelines, as JSON\n",
    "live IMAGE SCRIPT COMMANDS                            the same as `debug`, line by line as they come\n",
    "picture IMAGE SCRIPT OUT --steps N [--names APP]      draws a run at a glance, as SVG\n",
    "lcov APP SCRIPT OUT --steps N                         counts how often a run executed each line of the\n",
    "                                                      sources, for lcov\n",
    "help [COMMAND]                                        says this, or what one command takes and answers\n",
    "\n",
    "hubris help COMMAND says what one of them takes and answers. docs/FORMATS.md has the formats, docs/GUIDE.md a\n",
    "first application.\n",
];

/// The command `build`.
pub(crate) const BUILD: &[&str] = &[
    "hubris build APP OUT\n",
    "    makes the image of the application APP (Application, Building) and puts it under OUT\n",
    "takes   APP, whose plan is judged with it, then the source of each task in their order\n",
    "writes  `built <length> bytes`\n",
];

/// The command `run`.
pub(crate) const RUN: &[&str] = &[
    "hubris run IMAGE SCRIPT --steps N [--all] [--mem]\n",
    "    plays SCRIPT on IMAGE for at most N turns and tells it (Trace); with `--all` it tells each instruction\n",
    "    and the registers after it, with `--mem` the memory that the run leaves\n",
    "takes   IMAGE, then SCRIPT\n",
    "writes  the trace of the run\n",
];

/// The command `go`.
pub(crate) const GO: &[&str] = &[
    "hubris go APP SCRIPT --steps N [--all] [--mem]\n",
    "    the run of the image of APP, without a file between\n",
    "takes   APP, whose plan is judged with it, then the source of each task in their order, then SCRIPT\n",
    "writes  the trace of the run\n",
];

/// The command `list`.
pub(crate) const LIST: &[&str] = &[
    "hubris list IMAGE\n",
    "    says what IMAGE holds (Listing)\n",
    "takes   IMAGE\n",
    "writes  one line of JSON (Listing)\n",
];

/// The command `sample`.
pub(crate) const SAMPLE: &[&str] = &[
    "hubris sample SEED STEPS\n",
    "    builds the large sample of SEED, runs it for at most STEPS turns, and tells how the run ended and how\n",
    "    many notes it had (Summary)\n",
    "takes   no file\n",
    "writes  two lines (Summary)\n",
];

/// The command `migrate`.
pub(crate) const MIGRATE: &[&str] = &[
    "hubris migrate IMAGE OUT\n",
    "    puts IMAGE, which may be of either form, under OUT in the form in which images are built (Image)\n",
    "takes   IMAGE\n",
    "writes  `built <length> bytes`\n",
];

/// The command `audit`.
pub(crate) const AUDIT: &[&str] = &[
    "hubris audit TRACE\n",
    "    says whether TRACE is a trace that holds together (Audit)\n",
    "takes   TRACE\n",
    "writes  `yes <calls> <left>`, or `no <line>` (Audit)\n",
];

/// The command `save`.
pub(crate) const SAVE: &[&str] = &[
    "hubris save IMAGE SCRIPT OUT --steps N\n",
    "    plays SCRIPT on IMAGE for at most N turns, of which nothing is told, and puts the state that they come to\n",
    "    under OUT (Saved state)\n",
    "takes   IMAGE, then SCRIPT\n",
    "writes  `saved <length> bytes`\n",
];

/// The command `resume`.
pub(crate) const RESUME: &[&str] = &[
    "hubris resume IMAGE SCRIPT STATE --steps N [--all] [--mem]\n",
    "    goes on from the state STATE of a run of IMAGE with SCRIPT up to turn N, and tells what `run` would tell\n",
    "    from there\n",
    "takes   IMAGE, then SCRIPT, then STATE\n",
    "writes  the trace of the run from the saved turn on\n",
];

/// The command `debug`.
pub(crate) const DEBUG: &[&str] = &[
    "hubris debug IMAGE SCRIPT COMMANDS\n",
    "    carries out COMMANDS over the run of IMAGE with SCRIPT, forwards and back, and answers each (Commands)\n",
    "takes   IMAGE, then SCRIPT, then COMMANDS\n",
    "writes  the answer to each command (Commands)\n",
];

/// The command `cover`.
pub(crate) const COVER: &[&str] = &[
    "hubris cover IMAGE SCRIPT --steps N [--labels]\n",
    "    plays SCRIPT on IMAGE for at most N turns, of which nothing is told, and lists the code with how often\n",
    "    each instruction was executed, which ways branches took and what was never reached (Cover); with\n",
    "    `--labels` the first word is APP, which is built as by `go`, and the labels of its sources stand in the\n",
    "    listing\n",
    "takes   IMAGE, then SCRIPT; with `--labels` APP, whose plan is judged with it, then the source of each task\n",
    "        in their order, then SCRIPT\n",
    "writes  the listing of the code (Cover)\n",
];

/// The command `sweep`.
pub(crate) const SWEEP: &[&str] = &[
    "hubris sweep IMAGE SCRIPT ARRIVAL FROM TO --steps N [--mem]\n",
    "    plays SCRIPT on IMAGE for at most N turns, and then once more for each turn T from FROM on and below TO,\n",
    "    with the events of ARRIVAL besides, which begin in turn T; and tells how each of these runs ends (Sweep)\n",
    "takes   IMAGE, then SCRIPT, then ARRIVAL\n",
    "writes  the lines of the sweep (Sweep)\n",
];

/// The command `timeline`.
pub(crate) const TIMELINE: &[&str] = &[
    "hubris timeline IMAGE SCRIPT --steps N [--names APP]\n",
    "    plays SCRIPT on IMAGE for at most N turns and tells what each task did and what happened as events in the\n",
    "    Trace Event Format, which Perfetto and Chrome open (Timeline); with `--names` the tasks have the names\n",
    "    that APP gives them\n",
    "takes   IMAGE, then SCRIPT, then APP where it is named\n",
    "writes  the events, as JSON (Timeline)\n",
];

/// The command `live`.
pub(crate) const LIVE: &[&str] = &[
    "hubris live IMAGE SCRIPT COMMANDS\n",
    "    carries out the lines of COMMANDS, which may be a pipe or a terminal, as they come, and answers each\n",
    "    before it reads on (Live)\n",
    "takes   IMAGE, then SCRIPT, then COMMANDS line by line\n",
    "writes  the answer to each line (Live)\n",
];

/// The command `picture`.
pub(crate) const PICTURE: &[&str] = &[
    "hubris picture IMAGE SCRIPT OUT --steps N [--names APP]\n",
    "    plays SCRIPT on IMAGE for at most N turns, of which nothing is told, and puts a picture of what each task\n",
    "    did under OUT (Picture); with `--names` the tasks have the names that APP gives them\n",
    "takes   IMAGE, then SCRIPT, then APP where it is named\n",
    "writes  `drawn <length> bytes`\n",
];

/// The command `lcov`.
pub(crate) const LCOV: &[&str] = &[
    "hubris lcov APP SCRIPT OUT --steps N\n",
    "    the run of the image of APP, of which nothing is told, and puts how often it executed each line of the\n",
    "    sources under OUT, as a tracefile of lcov (Tracefile)\n",
    "takes   APP, whose plan is judged with it, then the source of each task in their order, then SCRIPT\n",
    "writes  `traced <length> bytes`\n",
];

/// The command `help`.
pub(crate) const HELP: &[&str] = &[
    "hubris help [COMMAND]\n",
    "    tells this table, or of one command what it does, takes and answers, with the tables of its statuses and\n",
    "    causes\n",
    "takes   no file\n",
    "writes  lines of these tables\n",
];

/// The limits.
pub(crate) const LIMITS: &[&str] = &[
    "limits\n",
    "    N and STEPS, in turns; FROM and TO   0 to 1000000000\n",
    "    SEED                                 0 to 4294967295\n",
    "    TRACE                                16777216 bytes\n",
    "    every other file                     2097152 bytes\n",
    "    flash, RAM of an image               1048576 bytes, 262144 bytes\n",
    "    tasks, interrupt lines, devices      512, 64, 8\n",
    "    regions, notifications of a task     8, 32\n",
    "    events of SCRIPT, of one turn        65536, 8 and a tick of `every`\n",
    "    commands of COMMANDS, breakpoints    1024, 16\n",
    "    COMMANDS of live, a line of it       4294967295 bytes, of which the first are read; 1024 bytes\n",
    "    events of ARRIVAL                    256\n",
];

/// The statuses.
pub(crate) const STATUSES: &[&str] = &[
    "statuses\n",
    "    0   all was done: what the command writes was written whole, and what it puts is under OUT; and 6, 7 and\n",
    "        8 do not apply\n",
    "    1   a file was read and is refused; writes `refused <name> <cause> <place>`\n",
    "    2   the words are not taken; writes `usage: hubris build, run, go, list, sample, migrate, audit, save,\n",
    "        resume, debug, cover, sweep, timeline, live, picture, lcov or help`\n",
    "    3   a file cannot be read; writes `cannot read <name>`, of COMMANDS of `live` behind the answers to the\n",
    "        lines that came\n",
    "    4   the output failed, and what is put is under OUT; or the put failed, and OUT is as it was\n",
    "    5   memory is short, always before the first byte is pushed or put; writes nothing\n",
    "    6   as 0, and the run of `run`, `go`, `resume`, `sample`, `cover` or `timeline` ended because the\n",
    "        supervisor faulted\n",
    "    7   the trace does not hold together; writes `no <line>` (Audit)\n",
    "    8   some arrival time makes a difference (Sweep)\n",
];

/// The commands of a session, and what each answers.
pub(crate) const SESSION: &[&str] = &[
    "commands, a line each\n",
    "    break H, clear H                   an address of eight hexadecimal digits, of either case\n",
    "    step N, back N, go N               a number of turns, 0 to 1000000000, of one to ten digits\n",
    "    go N KIND, back N KIND             the same, and a kind of line of Trace: `tick`, `irq`, `in`, `out`,\n",
    "                                       `post`, `call`, `ret`, `close`, `listen`, `offer`, `take`, `borrow`,\n",
    "                                       `fault`, `restart`, `irqstat` or `find`\n",
    "    go N KIND M, back N KIND M         the same, and a number, 0 to 4294967295, of one to ten digits\n",
    "    go N change H, back N change H     a number of turns, and an address\n",
    "    at N                               a turn, 0 to 1000000000, of one to ten digits\n",
    "    notes, help, quit                  nothing\n",
    "    regs T, task T                     the index of a task, 0 to 511\n",
    "    line L                             an interrupt line, 0 to 63\n",
    "    device D                           the index of a device, 0 to 7\n",
    "    mem H L                            an address, and a number of bytes, 1 to 64\n",
    "what each does, and its answer\n",
    "    break H                            the address is a breakpoint; answers `break <h>`, or `full` where 16\n",
    "                                       others are\n",
    "    clear H                            it is none any more; answers `clear <h>`, or `none` where it was none\n",
    "    step N                             the cursor goes N turns on, at most to the end of the run; answers `at\n",
    "                                       <turn> <now> <end>`\n",
    "    back N                             the cursor goes N turns back, at most to 0; answers the same\n",
    "    at N                               the cursor goes to turn N, forwards or back, at most to the end of the\n",
    "                                       run; answers the same\n",
    "    go N                               as `step`, but no further than behind the first turn that runs a task\n",
    "                                       whose PC before it is a breakpoint; answers `hit <turn> <task> <pc\n",
    "                                       h>`, with the cursor, the task and that PC; where there is no such\n",
    "                                       turn as `step`\n",
    "    go N KIND, go N KIND M             as `step`, but no further than behind the first turn of which such a\n",
    "                                       line is told; answers the first such line of that turn, as `run` tells\n",
    "                                       it; where there is no such turn as `step`\n",
    "    back N KIND, back N KIND M         as `back`, but no further than before the last turn of which such a\n",
    "                                       line is told; answers the same; where there is no such turn as `back`\n",
    "    go N change H                      as `step`, but no further than behind the first turn that changes the\n",
    "                                       byte at H; answers `<turn> change <task> <h> <old b> <new b>`; where\n",
    "                                       there is no such turn as `step`; `none`, and the cursor stays, where H\n",
    "                                       is in neither the flash nor the RAM\n",
    "    back N change H                    as `back`, but no further than before the last turn that changes it;\n",
    "                                       answers the same; where there is no such turn as `back`\n",
    "    notes                              answers the lines of `run --all` of the turn before the cursor, with\n",
    "                                       its number; `none` at turn 0\n",
    "    help                               answers `commands: break H, clear H, step N, back N, go N, go N KIND\n",
    "                                       [M], back N KIND [M], go N change H, back N change H, at N, notes,\n",
    "                                       help, quit, regs T, task T, line L, device D, mem H L`\n",
    "    quit                               ends the session: no further command is carried out; answers nothing\n",
    "    regs T                             answers the lines `low` and `high` of Trace, without a turn, or `none`\n",
    "                                       where there is no such task\n",
    "    task T                             answers the line `task` of Trace, or `none` where there is no such task\n",
    "    line L                             answers `line <line> <task> <bits h> <enabled> <pending>`, or `none`\n",
    "                                       where no task owns the line\n",
    "    device D                           answers `device <device> <h> console <count>`, or `device <device> <h>\n",
    "                                       port <waiting>` and, where some wait, a space and two digits a byte,\n",
    "                                       the one that waits longest first; `none` where there is no such device\n",
    "    mem H L                            answers `<h>`, a space, and two digits a byte, or `none` where one of\n",
    "                                       the bytes is in neither the flash nor the RAM\n",
];

/// The lines of a sweep, and the words of an outcome.
pub(crate) const OUTCOMES: &[&str] = &[
    "lines\n",
    "    without <outcome>                  the run with SCRIPT alone\n",
    "    <first> <last> <outcome>           each longest stretch of arrival times with one outcome, from the first\n",
    "                                       on; instead of the outcome `same` where it is that of the run without,\n",
    "                                       and `late` or `full` where no run is made\n",
    "words of an outcome, in this order\n",
    "    end                                `bound`, `still` or `supervisor`\n",
    "    faults                             how many lines `fault` the run has\n",
    "    first fault                        `<task>:<number>:<x h>:<y h>` of the first of them; `-` where there is\n",
    "                                       none\n",
    "    restarts                           how many lines `restart` it has\n",
    "    out                                how many lines `out` it has\n",
    "    digest of out                      `<h>`, over the device and the byte of each of them\n",
    "    tasks                              a letter a task, in their order: `s` stopped, `f` faulted, else `o`\n",
    "                                       where a call of its own is offered, `t` where it is taken, `w` where\n",
    "                                       it has none; a capital where its generation is not 0\n",
    "    digest of the RAM, with --mem      `<h>`, over all bytes of the RAM, from the first on\n",
];

/// The causes of IMAGE.
pub(crate) const IMAGE_CAUSES: &[&str] = &[
    "causes of IMAGE, the place is a byte of it\n",
    "    0   more than 2097152 bytes; the place is that number\n",
    "    1   Short: fewer bytes than its header tells\n",
    "    2   Magic: other first four bytes than `HBI2` or `HBI1`\n",
    "    3   Field: a number in its header or in a record that is out of its range\n",
    "    4   Long: more bytes than its header tells\n",
    "    5   Priority: a task 0 with another priority than 0, or another task with 0\n",
    "    6   Flags: flags above 1, or a task 0 that is not started\n",
    "    7   Stack: an SP that is not a multiple of 4\n",
    "    8   Rights: rights of a region that are none of 1, 3, 5, 7, 9 and 11\n",
    "    9   Shape: a region whose size is no power of two of at least 256, or whose base is no multiple of it\n",
    "    10  Outside: a region that is not wholly inside the area of its rights\n",
    "    11  Overlap: regions that overlap, of one task or of two\n",
    "    12  Entry: an entry whose bit 0 is clear, or that is in no executable region of its task\n",
    "    13  Line: an interrupt line above 63, or not above the line before\n",
    "    14  Owner: an interrupt of a task that there is not\n",
    "    15  Bits: an interrupt that posts no bit\n",
    "    16  Name: a name of a notification that is none, or fewer bytes than it tells\n",
    "    17  NameTwice: two notifications of one task with one name\n",
];

/// The causes of SCRIPT.
pub(crate) const SCRIPT_CAUSES: &[&str] = &[
    "causes of SCRIPT, the place is a line of it, from 1 on\n",
    "    0   more than 2097152 bytes; the place is that number\n",
    "    1   has a byte other than a tab (9) or 32 to 126\n",
    "    2   is none of the forms, whatever stands in place of numbers and texts\n",
    "    3   has something other than a number of one to ten digits or a text in place of one, or a number out of\n",
    "        range, or a B below A, or a byte of a text past turn 999,999,999\n",
    "    4   has a T or an A below that of an earlier line, or is an `every` behind one or another `every`\n",
    "    5   has the 65,537th event, or the ninth of a turn, of those of the lines before and its own\n",
];

/// The causes of APP.
pub(crate) const APPLICATION_CAUSES: &[&str] = &[
    "causes of APP, the place is a key or an entry of it\n",
    "    0   more than 2097152 bytes; the place is that number\n",
    "    1   NotToml: the bytes are no TOML document\n",
    "    2   UnknownKey: a key is unknown, the first in byte order of its table\n",
    "    3   MissingKey: a key that has to be there is not, or a table `board`, `supervisor` or `task`\n",
    "    4   WrongType: the value is of another type, also of an entry of a list\n",
    "    5   OutOfRange: a number is outside its range\n",
    "    6   BadName: a name has not the form of one, or `source` is empty\n",
    "    7   NameTwice: a name was used before: among tasks; among regions and devices; within one\n",
    "        `notifications`; within one task's `uses` and `reads`\n",
    "    8   UnknownTask: no task has the name\n",
    "    9   UnknownNotification: task 0 has no such notification; the interrupt's task has none\n",
    "    10  UnknownRegion: neither a region nor a device has the name; the interrupt's device is none that its\n",
    "        task uses or reads\n",
    "    11  TooManyTasks: there are more than 512 tasks\n",
    "    12  NoTask: the list of tasks is empty\n",
    "    13  TooManyNotifications: a task has more than 32\n",
    "    14  TooManyRegions: `uses` and `reads` have more than 6 entries together\n",
    "    15  SupervisorPriority: task 0 has another priority than 0, or another task has 0\n",
    "    16  SupervisorStopped: `start` of task 0 is `false`\n",
    "    17  BadStack: `stack` is above the task's `ram` as it is written, or no multiple of 8\n",
    "    18  LineTwice: an earlier interrupt has the line\n",
    "    19  BadDevice: the size is no power of two, the base no multiple of it, or a byte lies outside 0x40000000\n",
    "        to 0x5FFFFFFF\n",
    "    20  DeviceOverlap: it has a byte in common with an earlier device\n",
    "    21  not the description's but the plan's: the board has no room (Building)\n",
    "    22  behind `--names`: it has another number of tasks than IMAGE\n",
];

/// The causes of a source.
pub(crate) const SOURCE_CAUSES: &[&str] = &[
    "causes of a source, the place is a line of it, from 1 on\n",
    "    0   more than 2097152 bytes; the place is that number\n",
    "    1   BadByte: a byte that is not allowed\n",
    "    2   BadLabel: what stands before the line's first `:` outside quotes and comment is no name\n",
    "    3   LabelTwice: the label stands on an earlier line\n",
    "    4   UnknownMnemonic: first word of the statement, which ends at a blank\n",
    "    5   BadOperands: number or kind of operands, bad quoting, a number of `.space` or `.align` out of its\n",
    "        range\n",
    "    6   BadRegister: a register that the syntax's row does not take\n",
    "    7   BadNumber: no number, or not of 32 bits\n",
    "    8   UnknownSymbol: neither label nor symbol\n",
    "    9   OutOfRange: a value outside the range of its place\n",
    "    10  Misaligned: a value that is no multiple, or a statement at a wrong address\n",
    "    11  BadList: empty, double or illegal register list, wrong `!`\n",
    "    12  TooLong: more than 1,048,576 bytes with this line\n",
    "    13  NameClash: the label is a register's name or a symbol that was handed in\n",
    "    14  LineTooLong: above 255 bytes\n",
    "    15  not the assembler's but the builder's: the code is longer than the task's `flash`; the place is its\n",
    "        length (Building)\n",
];

/// The causes of TRACE.
pub(crate) const TRACE_CAUSES: &[&str] = &[
    "causes of TRACE, the place is a line of it, from 1 on\n",
    "    0   more than 16777216 bytes; the place is that number\n",
    "    1   it has a byte other than 32 to 126\n",
    "    2   it has more than 159 bytes\n",
];

/// The causes of STATE.
pub(crate) const STATE_CAUSES: &[&str] = &[
    "causes of STATE, the place is a byte of it\n",
    "    0   more than 2097152 bytes; the place is that number\n",
    "    1   Short: fewer bytes than its header tells\n",
    "    2   Magic: other first four bytes than `HBS1`\n",
    "    3   Field: a number in its header, or of an interrupt line, that is out of its range or not the image's\n",
    "    4   Long: more bytes than its header tells\n",
    "    5   Task: a record of a task that spells no task\n",
    "    6   Wait: a call or a listen that does not agree with the rest\n",
    "    7   Device: a record of a device that spells no device of this kind\n",
    "    8   Bound: a turn behind the one to which `resume` is asked to go on\n",
];

/// The causes of COMMANDS.
pub(crate) const COMMANDS_CAUSES: &[&str] = &[
    "causes of COMMANDS, the place is a line of it, from 1 on\n",
    "    0   more than 2097152 bytes; the place is that number\n",
    "    1   it has a byte other than a tab and 32 to 126\n",
    "    2   its first word is no command, there are more or fewer words behind it than one of its forms has, or\n",
    "        where a kind stands is none\n",
    "    3   a number is none of the form, or out of its range\n",
    "    4   it is the 1,025th command\n",
];

/// The causes of a line of COMMANDS that is carried out as it comes.
pub(crate) const LINE_CAUSES: &[&str] = &[
    "causes of a line of COMMANDS, which is answered by `refused <cause>`\n",
    "    1   it has a byte other than a tab and 32 to 126\n",
    "    2   its first word is no command, there are more or fewer words behind it than one of its forms has, or\n",
    "        where a kind stands is none\n",
    "    3   a number is none of the form, or out of its range\n",
    "    5   it has more than 1,024 bytes, whatever they are, its LF and a CR before that aside\n",
];

/// The causes of ARRIVAL.
pub(crate) const ARRIVAL_CAUSES: &[&str] = &[
    "causes of ARRIVAL, the place is a line of it, from 1 on, or 0\n",
    "    0   more than 2097152 bytes; the place is that number\n",
    "    1   to 5: a line of it is refused, as in a script\n",
    "    5   has more than 256 events; the place is 0\n",
    "    6   has an `every`; the place is 0\n",
];
