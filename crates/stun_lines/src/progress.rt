// How far long work is: on a terminal's standard error, once a second, where the answers go elsewhere.
use std::io::IsTerminal;
use std::time::{SystemTime, UNIX_EPOCH};
use stun_io::complaints::Complaint;

// The second of the last report, and how many lines were done then.
#[derive(Clone, Copy)]
pub struct Watch {
    rt: HostRuntime,
    second: u64,
    done: u64,
}

// By the system's clock; nought where it tells no time.
fn second(rt: HostRuntime) -> u64 {
    let Ok(now) = SystemTime::now(&rt) else {
        return 0;
    };
    match now.duration_since(UNIX_EPOCH) {
        Ok(past) => past.as_secs(),
        Err(_) => 0,
    }
}

impl Watch {
    // Where somebody is to be told.
    pub fn begin(rt: HostRuntime) -> Option<Watch> {
        let wanted = rt.stderr().is_terminal() && !rt.stdout().is_terminal();
        wanted.then(|| Watch {
            rt,
            second: second(rt),
            done: 0,
        })
    }

    pub fn tick(&mut self, done: u64) {
        let now = second(self.rt);
        if now != self.second {
            let more = done.saturating_sub(self.done);
            let mut complaint = Complaint::new(self.rt);
            write!(complaint, "\r{done} lines, {more} in the last second ");
            self.second = now;
            self.done = done;
        }
    }

    pub fn end(&self, done: u64) {
        let mut complaint = Complaint::new(self.rt);
        write!(complaint, "\r{done} lines, done                    \n");
    }
}
