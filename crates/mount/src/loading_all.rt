//! All that is loaded at a mount.
ghost use Rattle.std.specs.Prelude.{◌≡◌, ◌+◌, ◌<◌, ◌≤◌, ℕ, [], List, None, length, replicate, slice_index_or, vec_capacity};
ghost use Rattle.rights_books.specs.Accounts.{FileView};
ghost use Rattle.rights_books.specs.Weights.{mark_of};
ghost use Rattle.rights_books.specs.declared.claim.TakenNumber.{TakenNumber};
ghost use Rattle.device.specs.Parts.{IsBlockRun};
ghost use Rattle.geometry.specs.declared.owner.Mark.{Mark};
ghost use Rattle.geometry.specs.Area.{block_count};
ghost use Rattle.geometry.specs.Shape.{block_bytes, segment_blocks};
ghost use Rattle.image.specs.Rules.{IsLawful};
ghost use Rattle.image.specs.View.{image_view};
ghost use Rattle.image.specs.Walk.{names};
ghost use Rattle.mount_blocks.specs.TreeGoods.{ArePlaced, in_place, goods_weight};
ghost use Rattle.mount_blocks.specs.Loaded.{of_rights};
ghost use Rattle.nat.specs.Shard.{ShardNodes};
ghost use Rattle.nodes.specs.File.{weight_of};
ghost use Rattle.geometry.specs.Weights.{weigh};
ghost use Rattle.tickets.specs.Placed.{Placed};
ghost use Rattle.mount_blocks.specs.Rights.{AreRights};
ghost use Rattle.mount_blocks.specs.States.{AreSegmentsFrom};
ghost use Rattle.mount_blocks.specs.Table.{HaveBytes};
ghost use Rattle.mount_blocks.specs.Goods.{AreGoods, AreShards};
ghost use Rattle.mount.specs.MountFiles.{AreRooms, AreFiles};
ghost use Rattle.mount_blocks.specs.Lodging.{AreOfBook, file_of, of_file, of_some};
ghost use Rattle.mount.specs.Empty.{AreEmptyAccounts};

use crate::held::tell_all_lodged;
use crate::states::load_files;
use device::Block;
use geometry::Geometry;
use image::Image;
use mount_blocks::{
    FileRoom, LoadedSegments, SegmentMemory, Stock, load_nodes, load_segments, lodge_tickets,
    lodge_tokens,
};
use nat::Shard;
use nodes::FileState;
use rights_books::{Books, CallAccount, FileAccount};
use tickets::{NidToken, Ticket};
use words::Words;

/// What is made before the first block of a device moves: the rights to segments, shards and files, and the memory for all that
/// comes into them. In the tables nothing stands.
pub struct VolumeMemory<B: Block + Drop> {
    pub segments: SegmentMemory<B>,
    pub shards: Vec<Shard<B>>,
    pub accounts: Vec<FileAccount>,
    pub rooms: Vec<Option<FileRoom<B>>>,
    pub tickets: Vec<Option<Ticket<B>>>,
    pub tokens: Vec<Option<NidToken>>,
    pub files: Vec<Option<FileState<B>>>,
}

/// The segments and the shards of a main area.
pub struct LoadedArea<B: Block + Drop> {
    pub segments: LoadedSegments<B>,
    pub shards: Vec<Shard<B>>,
}

/// The main area, the files with their accounts, and the stock out of which the files came, in which nothing is left.
pub struct LoadedVolume<B: Block + Drop> {
    pub area: LoadedArea<B>,
    pub accounts: Vec<FileAccount>,
    pub files: Vec<Option<FileState<B>>>,
    pub stock: Stock<Ticket<B>>,
}

/// The blocks of a device come into the segments, the shards and the files of a lawful image, and all tickets and tokens are
/// lodged with the files. The hand has nothing before and nothing after. It takes no memory.
pub fn load_volume<B: Block + Drop>(
    geometry: &Geometry,
    image: &Image,
    books: &Books,
    words: &Words,
    hand: &mut CallAccount,
    memory: VolumeMemory<B>,
    blocks: &mut Vec<B>,
) -> LoadedVolume<B>
    requires lawful { IsLawful geometry.now (image_view image.now) }
    requires layout { books.now.key.blocks ≡ segment_blocks geometry.now.shape }
    requires hand { hand.old ≡ record { book = books.now.book; tickets = []; tokens = [] } }
    requires rights { AreRights geometry.now.shape books.now.book words.now.table memory.segments.rights.rooms.items memory.segments.rights.accounts.items memory.segments.rights.standings.items memory.segments.rights.slips.items }
    requires count { length memory.segments.rights.rooms.items ≡ geometry.now.segments }
    requires none { (memory.segments.room.states.items ≡ []) × (memory.segments.room.free.items ≡ []) × (memory.segments.room.logs.items ≡ replicate 6 None) }
    requires states { geometry.now.segments ≤ vec_capacity memory.segments.room.states }
    requires free { geometry.now.segments ≤ vec_capacity memory.segments.room.free }
    requires shards { AreShards books.now.book geometry.now.nodes memory.shards.items }
    requires no_numbers { (k : ℕ) (other : ShardNodes) → k < length memory.shards.items → (slice_index_or memory.shards.items k other).taken ≡ [] }
    requires accounts { AreEmptyAccounts books.now.book memory.accounts.items }
    requires every_file { length memory.accounts.items ≡ geometry.now.files }
    requires rooms { AreRooms geometry.now (image_view image.now) memory.rooms.items }
    requires tickets { memory.tickets.items ≡ replicate (block_count geometry.now + 1) None }
    requires tokens { memory.tokens.items ≡ replicate (geometry.now.nodes + 1) None }
    requires files { memory.files.items ≡ replicate (geometry.now.files + 1) None }
    requires run { IsBlockRun B.address_of B.content_of (block_bytes geometry.now.shape) 1 blocks.old.items }
    requires blocks { length blocks.old.items ≡ block_count geometry.now }
    ensures segments { AreSegmentsFrom geometry.now (image_view image.now) books.now.book words.now.table 0 result.area.segments.states.items result.area.segments.free.items result.area.segments.logs.items }
    ensures shards { AreShards books.now.book geometry.now.nodes result.area.shards.items }
    ensures goods { (bytes : ℕ → List ℕ) → HaveBytes B.content_of bytes blocks.old.items → AreGoods geometry.now (image_view image.now) bytes result.stock.all.tickets result.stock.all.tokens }
    ensures files { AreFiles geometry.now (image_view image.now) result.stock.all result.files.items }
    ensures all { (ticket : Placed → ℕ) (token : TakenNumber → ℕ) → weigh (in_place (λ f. weight_of f (of_rights ticket token))) result.files.items
        ≡ weigh (in_place ticket) result.stock.all.tickets + weigh (in_place token) result.stock.all.tokens }
    ensures every_file { length result.accounts.items ≡ geometry.now.files }
    ensures accounts { (k : ℕ) (other : FileView) → k < length result.accounts.items → slice_index_or result.accounts.items k other
        ≡ record { book = books.now.book; inode = k + 1; tickets = (slice_index_or result.accounts.items k other).tickets; tokens = (slice_index_or result.accounts.items k other).tokens; content = None } }
    ensures lodged_tickets { (k : ℕ) (other : FileView) → k < length result.accounts.items → (h : Mark → ℕ) → weigh h (slice_index_or result.accounts.items k other).tickets
        ≡ weigh (in_place (λ (t : Placed). of_file (k + 1) (file_of (image_view image.now) t.mark.owner) (h t.mark))) result.stock.all.tickets }
    ensures lodged_tokens { (k : ℕ) (other : FileView) → k < length result.accounts.items → (h : TakenNumber → ℕ) → weigh h (slice_index_or result.accounts.items k other).tokens
        ≡ weigh (in_place (λ e. of_file (k + 1) e.inode (h e))) result.stock.all.tokens }
    ensures nothing { goods_weight (λ _. 1) (λ _. 1) result.stock ≡ 0 }
    ensures hand { hand.new ≡ hand.old }
    ensures blocks { length blocks.new.items ≡ 0 }
    ensures capacity { vec_capacity blocks.new ≡ vec_capacity blocks.old }
{
    let VolumeMemory {
        segments,
        mut shards,
        mut accounts,
        rooms,
        mut tickets,
        mut tokens,
        mut files,
    } = memory;
    let segments = load_segments(
        geometry,
        image,
        books,
        words,
        hand,
        segments,
        blocks,
        &mut tickets,
    );
    load_nodes(
        geometry,
        image,
        books,
        hand,
        &mut shards,
        &mut tickets,
        &mut tokens,
    );
    lodge_tickets(image, books, hand, &mut accounts, &mut tickets);
    lodge_tokens(books, hand, &mut accounts, &tokens);
    let stock = load_all_files(geometry, image, rooms, tickets, tokens, &mut files);
    LoadedVolume {
        area: LoadedArea { segments, shards },
        accounts,
        files,
        stock,
    }
}

// The files of a lawful image come out of all its tickets and tokens into a table where none stands. The stock of them has nothing
// left, and none of them was of no file.
fn load_all_files<B: Block + Drop>(
    geometry: &Geometry,
    image: &Image,
    rooms: Vec<Option<FileRoom<B>>>,
    tickets: Vec<Option<Ticket<B>>>,
    tokens: Vec<Option<NidToken>>,
    files: &mut Vec<Option<FileState<B>>>,
) -> Stock<Ticket<B>>
    requires lawful { IsLawful geometry.now (image_view image.now) }
    requires rooms { AreRooms geometry.now (image_view image.now) rooms.items }
    requires goods { (bytes : ℕ → List ℕ) × AreGoods geometry.now (image_view image.now) bytes tickets.items tokens.items }
    requires placed { ArePlaced (λ (t : Placed). t.mark) (record { tickets = tickets.items; tokens = tokens.items }) }
    requires marks { (h : Mark → ℕ) → weigh (in_place (λ (t : Placed). h t.mark)) tickets.items + weigh (in_place (λ e. h (mark_of e))) tokens.items
        ≡ weigh h (names geometry.now (image_view image.now)) }
    requires none { files.old.items ≡ replicate (geometry.now.files + 1) None }
    ensures shelves { result.all ≡ record { tickets = tickets.items; tokens = tokens.items } }
    ensures files { AreFiles geometry.now (image_view image.now) result.all files.new.items }
    ensures all { (ticket : Placed → ℕ) (token : TakenNumber → ℕ) → weigh (in_place (λ f. weight_of f (of_rights ticket token))) files.new.items
        ≡ weigh (in_place ticket) result.all.tickets + weigh (in_place token) result.all.tokens }
    ensures nothing { goods_weight (λ _. 1) (λ _. 1) result ≡ 0 }
    ensures of_files { (h : Mark → ℕ) → weigh (in_place (λ (t : Placed). of_some geometry.now.files (file_of (image_view image.now) t.mark.owner) (h t.mark))) result.all.tickets
        ≡ weigh (in_place (λ (t : Placed). h t.mark)) result.all.tickets }
    ensures tokens_of_files { (h : TakenNumber → ℕ) → weigh (in_place (λ e. of_some geometry.now.files e.inode (h e))) result.all.tokens ≡ weigh (in_place h) result.all.tokens }
{
    let mut stock = Stock::of(tickets, tokens);
    load_files(geometry, image, rooms, &mut stock, files);
    tell_all_lodged(geometry, image, &stock, files);
    stock
}
