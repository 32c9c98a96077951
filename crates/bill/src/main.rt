// Bills the journal that comes on standard input behind its rate.
#![tactic(auto)]

fn main(rt: HostRuntime) {
    let mut streams = files::standard(&rt);
    let mut bytes = [0u8; biller::ROOM];
    let Ok(used) = files::whole(&mut streams, &mut bytes) else {
        return;
    };
    let mut out = [0u8; bills::ROOM];
    let n = biller::bill(&bytes[..used], &mut out);
    let _ = files::show(&mut streams, &out[..n]);
}
