//! The objects of a room, and those of its events.
use crate::runs::holds;
use device_core::SubmitError;
use record_core::Form;
use room_event::EventError;
use room_trace::{RoomTexts, add_end, add_event_in, add_room};
use std::process::Abort;
use text_core::{Counted, Writes};

const TOPOLOGY: &str = "\
# a room
device tv tv 4
device p1 player 0

plug p1 tv 1
edid 00ff
";

const SCRIPT: &str = "\
at 1000 press p1 play
# a pulse and a pull between the events
pulse 2000 100
pull 2101 20000
at 3000 send p1 4>0 set-osd-name \"a\"
at 4000 plug p1 tv 2
pin 30000 0
end 5000
";

/// Events, with when they were applied, their lines of the script, also one above that of the event before, or one that is not there,
/// and whether they were refused.
const EVENTS: &[(u64, u64, bool)] = &[
    (1000, 1, false),
    (3000, 5, true),
    (4000, 6, false),
    (4500, 1, false),
    (4600, 9, false),
];

const OBJECTS: &str = "\
{'line':'device tv tv 4','type':'device','device':'tv','kind':'tv','ports':4}
{'line':'device p1 player 0','type':'device','device':'p1','kind':'player','ports':0}
{'line':'plug p1 tv 1','type':'plug','device':'p1','parent':'tv','port':1}
{'line':'edid 00ff','type':'edid','edid':'00ff'}
{'line':'pulse 2000 100','type':'pulse','at':2000,'width':100}
{'line':'pull 2101 20000','type':'pull','at':2101,'width':20000}
{'line':'pin 30000 0','type':'pin','at':30000,'level':0}
{'line':'1000 event 1 ok','type':'event','at':1000,'script_line':1,'verdict':'ok','cause':null,'verb':'press','device':'p1','text':'press p1 play'}
{'line':'3000 event 5 refused no-address','type':'event','at':3000,'script_line':5,'verdict':'refused','cause':'no-address','verb':'send','device':'p1','text':'send p1 4>0 set-osd-name \\'a\\''}
{'line':'4000 event 6 ok','type':'event','at':4000,'script_line':6,'verdict':'ok','cause':null,'verb':'plug','device':'p1','text':'plug p1 tv 2'}
{'line':'4500 event 1 ok','type':'event','at':4500,'script_line':1,'verdict':'ok','cause':null,'verb':'press','device':'p1','text':'press p1 play'}
{'line':'4600 event 9 ok','type':'event','at':4600,'script_line':9,'verdict':'ok','cause':null,'verb':null,'device':null,'text':null}
{'line':'5000 end','type':'end','at':5000}
";

#[test]
fn events_have_their_lines(rt: HostRuntime) {
    let mut out = Vec::new(rt.alloc());
    let mut sink = Writes::new(&mut out);
    let mut objects = Counted::new(&mut sink);
    let mut room = Some(RoomTexts::new(TOPOLOGY.as_bytes(), SCRIPT.as_bytes()));
    add_room(&mut objects, &room);
    for (at, line, is_refused) in EVENTS {
        let refused = if *is_refused {
            Some(EventError::Send(SubmitError::NoAddress))
        } else {
            None
        };
        add_event_in(&mut objects, &mut room, *at, *line, refused);
    }
    add_end(&mut objects, Form::Json, 5000);
    holds(&rt, objects.written().is_ok(), "all of it");
    let text = String::from_utf8(out).expect(&rt, "a text");
    let text = text.replace(rt.alloc(), "\"", "'").expect(&rt, "a text");
    holds(&rt, text.as_str() == OBJECTS, text.as_str());
}
