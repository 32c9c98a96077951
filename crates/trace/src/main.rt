// Lists the journal that comes on standard input.
#![tactic(auto)]

use forms::Form;

fn main(rt: HostRuntime) {
    stream::run(&mut files::standard(&rt), Form::Lines);
}
