// A machine made ready for a run: the classes of the first characters and the default's mode, looked up once.
ghost use Rattle.std.specs.Prelude.{◌≡◌, ◌+◌, ◌≤◌, ◌<◌, length, take, drop};
ghost use Rattle.meaning.specs.Block.{at};
ghost use Rattle.automaton.specs.Layout.{classes_from};
ghost use Rattle.automaton.specs.Sound.{class_count, mode_at};
ghost use Rattle.automaton.specs.Classes.{class_of};
ghost use Rattle.rules.specs.bridge.Modes.{the_mode};
ghost use Rattle.session.specs.bridge.Running.{Classed, ClassEnds, Painted};

use rules::mode::Mode;
use words::numbers::ClassNo;
use words::read::Machine;

// The machine, the classes of the first characters, as many as there are places, and the default's mode.
#[derive(Clone, Copy)]
pub struct Prepared<'a> {
    pub machine: Machine<'a>,
    pub classes: &'a [u16],
    pub mode: Mode,
    pub ghost classed: { Classed machine.words.all.now classes.now },
    pub ghost its_mode: { the_mode mode ≡ mode_at machine.words.all.now },
}

impl<'a> Prepared<'a> {
    // The class of a character, looked up where it is one of the first.
    pub fn class_in(&self, c: u16) -> ClassNo
        ensures { result.0
            ≡ class_of (take (class_count self.now.machine.words.all.now) (drop classes_from self.now.machine.words.all.now)) c }
    {
        let place = usize::from(c);
        if place < self.classes.len() {
            return ClassNo(self.classes[place]);
        }
        self.machine.class_of(c)
    }

    // The class of a character between two words. Most characters of a text lie in the last class, beyond every range, so where the class has to be
    // worked out, that one is tried first.
    pub fn class_between(&self, c: u16) -> ClassNo
        ensures { result.0
            ≡ class_of (take (class_count self.now.machine.words.all.now) (drop classes_from self.now.machine.words.all.now)) c }
    {
        if usize::from(c) >= self.classes.len() {
            let last = last_class(self.machine);
            if self.machine.words.class_start(last) <= c {
                return last;
            }
        }
        self.class_in(c)
    }
}

// The last class.
fn last_class(machine: Machine<'_>) -> ClassNo
    ensures { result.0 + 1 ≡ class_count machine.entry.words.all.now }
{
    ClassNo((machine.words.class_count() - 1) as u16)
}

// The end of a class among the first `most` characters: the next class's start, or `most` where that is not among them.
fn class_end(machine: Machine<'_>, class: usize, most: usize) -> usize
    requires { (class < class_count machine.words.all.now)
        × (at machine.words.all.now (classes_from + class) ≤ most) }
    ensures { ClassEnds machine.entry.words.all.now class most result }
{
    if class + 1 < machine.words.class_count() {
        let next = usize::from(machine.words.class_start(ClassNo((class + 1) as u16)));
        if next < most {
            return next;
        }
    }
    most
}

// The places from `from` on and below `to` get the class, sixteen at a time, which takes fewer instructions than to paint a few just as far as
// they go. Up to fifteen places behind them may be painted over.
fn paint_range(classes: &mut [u16], from: usize, to: usize, class: u16)
    requires { (from ≤ to) × (to + 16 ≤ length classes.old) }
    ensures { (length classes.new ≡ length classes.old) × Painted classes.old from to class classes.new }
{
    for c in (from..to).step_by(16) {
        classes[c..c + 16].fill(class);
    }
}

// The classes of the first `most` characters, class by class, since each is a range. The table has sixteen places more.
pub fn fill_classes(machine: Machine<'_>, most: usize, classes: &mut [u16])
    requires { most + 16 ≤ length classes.old }
    ensures { (length classes.new ≡ length classes.old) × Classed machine.entry.words.all.now (take most classes.new) }
{
    let mut from: usize = 0;
    for class in 0..machine.words.class_count() {
        if from == most {
            break;
        }
        let to = class_end(machine, class, most);
        paint_range(classes, from, to, class as u16);
        from = to;
    }
}

// How many of the first characters have their classes worked out beforehand for a short piece: those below the last class, so that a character is
// looked up or is of the last class. None where these are more than 64, or where the piece has too few characters to gain from it.
pub fn covered(machine: Machine<'_>, size: usize) -> usize
    ensures { result ≤ 64 }
{
    let last = usize::from(machine.words.class_start(last_class(machine)));
    if last > 64 || size < 8 {
        return 0;
    }
    last
}
