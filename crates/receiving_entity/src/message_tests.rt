// Messages that make no packet, or make one among others. The octets are those that `scripts/card-vectors` makes with
// openssl.
use crate::Card;
use crate::test_cards::{
    expect, expect_answer, lines_of, restarts, second, second_answer, updates, updates_answer,
    usual_card,
};
use disk_model::MemDisk;
use std::alloc::Global;
use std::test::Fail;

/// A script of 1,025 octets, under a reference of two octets.
fn wide() -> &'static str {
    "08080400010801700004181516391212b00010ee89e5c468164fffb888c903a71543bd6c2e17f17c7afda1a2d2be9017aa918443c6f660da84d65a44bea84fbbfa6152124a5d1568afd53e47292a99825c7810ccb8c515a8bd57399bec85d4baee817ebb958473a6b7602beb0d400f37a6b40dc415a12dc47f7bfefe7ed2c8dec7b89837f6143c454ce328a0 060804000108023348c505098af13ba4b62ca4c7ee509fbdf4a7bb2eababc6019344b96882405fd21249cce7893115d23808d3c8f9990f00ec5a8c29f76e04e811d49ebc92657e9bbbad63500f633e05250546769e8ee86c48769921d22e8f865141c8ebdd75132053a6c6901690603e6eb566c80ae0b3907b77d6df48bf07366548279f1986518a831cf459 06080400010803be775f3844d6e330b54c2631e91b7df7d44bd10a9587cea1bdeab5ff12180152af94367ab5bbbf18f74a24d0c3ef47271e71e4057f47b869e9c35d4a15cc79333e413275d40d104bb0e50773098fc211b5a890ee5d9d30f0f5e589ca37ff1ed42ec514fa6a2da6c8d069676676c0b4f16e8ab5231f58f7434db1e0952d3533de5fc6ec3dc1 06080400010804858344bfe75e6b3c10e3e581d25131e28c04f08e3ea7bfd61b66a63fbf15226b9eed70687e367db770f3ebe94130e8343fff0ee67d3fa92429d8d6117102746a3add19cb99f29e5e5b30c3126a8aac9f91a095cb1ed6e7d051bee7d8aa71c0788d9813ffbe8675877530cb6c9202fd7d62f2bbfc37ba2bacbc6ec483564bd9f8c770f5e2d0 060804000108055f56a63b3b807f7be76b9b809ee05f55b0195e6e2b29a70947251ca9b572165444411c6da477933ac3e316619d898e153ca9a43704c3022f59fe3ce3f9360225b7a1fde8990c204dc66d2644f666ee07958ea42a12cd3b2d103b849aa933a5418b1a807616017691bc3ff1024a98e5663218e1b10c9029c73faf0bca1422646842eb5f7067 0608040001080666a5f73e0e8e0c9599490ebcd66d3b1953c689e0ddb6d3a5f2b9ebd29e8626610dc5f0eca757c83e1f4b9df7b8fad44b7e0301c0df04b8b030c5fefc059a94b64c10c6cffcb12c7054e384cdee1d1fec0112e3ec6256dd107e373e75ec0b5c672907581d92a16e7f9515e89469cdb4b424b5e28020fc3dce1f6477d8a664295b8409977e62 060804000108078e2b44cced0af5e2e51235bb6d899265b05d7695a81a6762e069ce0c0b16c2271dd24a7687a5c6bdec98e60b070cff0972c909159754fd037c08f88a8a2cf41d8b7ff627a26a123055ab41ad032a9d333451044a116ed165a53b54dfd69a03725fd0fdc4818aac9349de565d51b0843b26cf636405cadd5974ce73e9d04b32971ca8c89d0b 060804000108086434da1ec6b46c884cac37fb5e2f39d93d5520109954c92267864ec52647716ba0b68e1651f994baf29580f12ca3fb44a7905855b9d7e6ef781563fc7f57f87762d7b5678e7058190157884a5f980a42912445aaf24543e0232920ed9c0950c6d6d0948f1e8c4ed136a3ceadfa3db933b78ab9816f50ec8786"
}

fn wide_answer() -> &'static str {
    "027100002412b000109f48eaf60414307022d12e373998f7301e3e8ab10c80332e82a763445a09546c"
}

/// The same for a card with a buffer of 1,024 octets.
fn wide_refused() -> &'static str {
    "027100001412b00010114e52e6b09ae13e3cff8720274670c4"
}

/// Two pieces of a packet.
fn first_piece() -> &'static str {
    "070003010201700000881516391212b000107e48169aac5f1eb4478d9c9ca2ceb4b777aac30e21d7773842718200b61d1115a98c0fd00d7bce255983aa04bebfb2c4c99c878bbf3e6b266c55be0f8422ddaf90e5769b55900762447eede98b546b91547b36cd86c9f8683ef986fca8ad5315f9212b357dd073450081dea9d4eb6afcf896a2688707f879748b"
}

fn second_piece() -> &'static str {
    "0500030102020baf2630104c"
}

fn pieces_answer() -> &'static str {
    "027100002412b00010f2b8e7f56a42c5bc48ce2d7264b1e36b0f934b47052e0a3abf2012a13853bc91"
}

fn takes_both(alloc: Global, card: &mut Card<MemDisk>) -> Result<(), Fail> {
    expect_answer(alloc, card, wide(), wide_answer())?;
    expect_answer(alloc, card, second(), second_answer())
}

#[test]
fn wide_card_takes_both_kinds_of_references(rt: HostRuntime) -> Result<(), Fail> {
    let mut card = usual_card(rt.alloc(), 0, 2048, true)?;
    takes_both(rt.alloc(), &mut card)
}

#[test]
fn wide_card_has_a_buffer(rt: HostRuntime) -> Result<(), Fail> {
    let mut card = usual_card(rt.alloc(), 0, 1024, true)?;
    expect_answer(rt.alloc(), &mut card, wide(), wide_refused())
}

fn passes_over(alloc: Global, card: &mut Card<MemDisk>) -> Result<(), Fail> {
    expect_answer(alloc, card, wide(), "")?;
    expect(lines_of(card) == 0, "a line was added")?;
    expect_answer(alloc, card, updates(), updates_answer())
}

#[test]
fn other_card_passes_over_wide_references(rt: HostRuntime) -> Result<(), Fail> {
    let mut card = usual_card(rt.alloc(), 0, 2048, false)?;
    passes_over(rt.alloc(), &mut card)
}

fn joins_pieces(alloc: Global, card: &mut Card<MemDisk>) -> Result<(), Fail> {
    expect_answer(alloc, card, second_piece(), "")?;
    expect_answer(alloc, card, second_piece(), "")?;
    expect_answer(alloc, card, "027100aa", "")?;
    expect_answer(alloc, card, "aa", "")?;
    expect_answer(alloc, card, first_piece(), pieces_answer())
}

#[test]
fn pieces_come_in_any_order(rt: HostRuntime) -> Result<(), Fail> {
    let mut card = usual_card(rt.alloc(), 0, 1024, false)?;
    joins_pieces(rt.alloc(), &mut card)
}

fn forgets_pieces(alloc: Global, card: &mut Card<MemDisk>) -> Result<(), Fail> {
    expect_answer(alloc, card, first_piece(), "")?;
    expect(restarts(card), "it doesn't restart")?;
    expect_answer(alloc, card, second_piece(), "")?;
    expect_answer(alloc, card, first_piece(), pieces_answer())
}

#[test]
fn restart_forgets_pieces(rt: HostRuntime) -> Result<(), Fail> {
    let mut card = usual_card(rt.alloc(), 0, 1024, false)?;
    forgets_pieces(rt.alloc(), &mut card)
}
